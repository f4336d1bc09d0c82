//! A console of a router: interfaces, each with an address, an MTU and a speed, which lines set and show.
#![tactic(auto)]

mod console;
pub mod grammar;
mod program;
mod rules;

pub use console::{Interface, obey, put_reply};
pub use program::Console;
pub use rules::ConsoleRules;
