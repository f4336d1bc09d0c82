//! Help: what `?` shows of a line (COMND).
#![tactic(auto)]

pub mod laws;
mod listing;
mod names;
mod numbers;
mod phrase;

pub use listing::{help, put_help};
