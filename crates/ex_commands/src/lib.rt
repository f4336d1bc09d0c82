//! The commands of the EXEC: what a confirmed line commands, what a command does to a store and shows, and how a file
//! is typed in.
#![tactic(auto)]

mod acted;
mod acts;
mod command;
mod commands;
mod data;
mod fields;
pub mod laws;
mod line;
mod lines;
mod names;
mod pairs;
mod pending;
mod place;
mod plans;
mod printing;
mod replies;
mod texts;

pub use acted::{Acted, answer_by};
pub use acts::{act, refuse};
pub use command::Command;
pub use commands::print::quoted_by;
pub use commands::take::file_bytes;
pub use data::{Data, DataTurn};
pub use lines::{put_day, put_held};
pub use names::{full_of, put_directory, put_file, put_full};
pub use place::{directory_name, place_by};
pub use plans::write_data;
pub use printing::put_printing;
pub use replies::put_done;
