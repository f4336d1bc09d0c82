//! Keyword tables: entries in order, and the look-up of an atom that may be an abbreviation (TBLUK).
#![tactic(auto)]

mod common;
mod entry;
mod fault;
pub mod laws;
mod listed;
mod search;
mod start;
mod table;

pub use entry::{Entry, Flag};
pub use table::{Look, Table, TableFault};
