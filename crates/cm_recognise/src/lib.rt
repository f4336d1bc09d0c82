//! Recognition: what ESC and control-F put into a line (COMND).
#![tactic(auto)]

mod bytes;
mod digits;
mod file_outcome;
mod found;
mod insertion;
pub mod laws;
mod letters;
mod outcome;
mod remaining;

pub use bytes::Bytes;
pub use insertion::{Insertion, Mode, complete};
pub use outcome::Outcome;
