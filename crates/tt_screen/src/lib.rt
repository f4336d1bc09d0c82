//! A plain screen of 80 columns, and the program `tt20` that says what stands on it.
#![tactic(auto)]

pub mod laws;
mod program;
mod row;
mod screen;
mod status;

pub use program::{KEY_LIMIT, tt20};
pub use row::{Row, WIDTH};
pub use screen::{KEPT_ROWS, Screen};
pub use status::Status;
