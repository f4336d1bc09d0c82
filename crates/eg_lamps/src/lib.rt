//! The lamps of named rooms, as a program of lines alone.
#![tactic(auto)]

mod command;
pub mod grammar;
mod lamps;
pub mod laws;
mod program;

pub use command::command_of;
pub use lamps::{Change, Command, Lamp, RoomRules, dark_lamps, obey, put_reply};
pub use program::Program;
