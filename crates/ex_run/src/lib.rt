//! A run of an application of the engine over a store: keys in, the screen, the log, the image of its store and a
//! status out. How a run ends, what it begins from, and how its end is closed, for any application that says where it
//! begins and where its store is.
#![tactic(auto)]

mod closing;
pub mod laws;
mod no_log;
mod program;

pub use closing::close;
pub use no_log::NoLog;
pub use program::{KEY_LIMIT, Program, run_program};
