//! Control files: the EXEC's lines, with labels and conditions, run without keys. What each line is, and where the
//! labels stand, are calls of their own, so that another program can read control files.
#![tactic(auto)]

mod batch;
mod control;
mod control_file;
mod ending;
mod file;
mod job;
mod labels;
pub mod laws;
mod line_bytes;
mod program;
mod step;
mod words;

pub use batch::{CONTROL_LINES, run_batch};
pub use control::{Control, Order, control_of, is_label_name, parsable};
pub use ex_system::{Status, Words};
pub use file::ControlFile;
pub use job::Job;
pub use program::{JobForm, batch20};
pub use step::Ended;
