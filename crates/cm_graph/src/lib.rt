//! The grammar of a command language: a node for each place where a line may be.
#![tactic(auto)]

mod chain;
mod clash;
mod exit;
mod fault;
mod field;
mod graph;
mod help;
mod table;

pub use fault::{GraphFault, GraphReason};
pub use graph::draw;
