//! The EXEC: what its confirmed lines do, how a command waits for its subcommands, and how a file is typed in; and the
//! EXEC as an application of the engine, with the command files that it takes.
#![tactic(auto)]

mod command_file;
mod exec;
mod grammar;
mod interpreter;
pub mod laws;
mod pending;
mod taking;
mod typing;

pub use exec::{Exec, MOST_FILES};
pub use grammar::ExecGrammar;
pub use interpreter::{Interpreter, outcome_of};
pub use pending::Pending;
pub use taking::{Took, take};
pub use typing::Typing;
