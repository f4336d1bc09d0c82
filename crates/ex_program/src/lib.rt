//! The EXEC's run, `exec20`: the EXEC as a program over a store, by the words that it is given; and the run over
//! generated keys, each line of them computed from a number by a rule that is written down, with its summary.
#![tactic(auto)]

mod figures;
mod generated_line;
mod generated_run;
mod generator;
pub mod laws;
mod program;
mod progress;
mod summary;
mod words;

pub use ex_system::{Status, Words};
pub use generated_run::summarize;
pub use generator::Generator;
pub use program::{ExecProgram, exec20};
pub use progress::{GENERATED_KEYS, GENERATED_LINES};
pub use summary::Summary;
