//! A program to copy and rename: ADD adds a number and shows the sum, QUIT ends.
#![tactic(auto)]

mod command;
pub mod grammar;
pub mod laws;
mod program;

pub use command::{Command, command_of};
pub use program::{MOST, Program};
