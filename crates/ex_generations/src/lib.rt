//! The generations of one file name and type, as TOPS-20 numbers them.
#![tactic(auto)]

mod bytes;
mod change;
mod errors;
mod file;
mod gens;
pub mod laws;
mod search;

pub use bytes::Bytes;
pub use errors::{GenFull, NoGen};
pub use file::{FILE_LIMIT, File, GENERATION_LIMIT, PAGE_BYTES, Remark};
pub use gens::Gens;
