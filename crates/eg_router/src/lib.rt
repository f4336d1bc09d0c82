//! The command line of a router: modes, a tree of keywords, interfaces that come and go, and a configuration that can
//! be typed again.
#![tactic(auto)]

mod command;
mod configuration;
pub mod grammar;
mod interface;
mod interfaces;
pub mod laws;
mod program;
mod router;
mod rules;
mod tables;

pub use command::{Command, Shown, command_of};
pub use configuration::put_reply;
pub use interface::{Change, Interface};
pub use interfaces::{INTERFACE_LIMIT, Interfaces};
pub use router::{Mode, Router};
