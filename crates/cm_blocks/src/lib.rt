//! Grammars as data: nodes, each a chain of function blocks, tried on a text with every trial counted
//! (COMND).
#![tactic(auto)]

mod chain;
mod default;
mod fault;
mod field;
mod function;
mod grammar;
mod keyword;
pub mod laws;
mod node;
mod once;
mod steps;
mod trial;

pub use chain::try_chain;
pub use fault::{BLOCK_LIMIT, NODE_LIMIT, TABLE_LIMIT};
pub use field::{Chain, Ending, FIELD_LIMIT, Fault, Field, Open};
pub use function::{Function, Role};
pub use grammar::{Grammar, GrammarFault};
pub use keyword::{key, switch};
pub use node::{Block, Blocks, Node, push_nodes};
pub use once::{is_used, may_come, repeats};
pub use steps::Steps;
pub use trial::try_function;
