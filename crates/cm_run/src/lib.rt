//! The engine of a command program: keys in, lines edited and parsed, confirmed lines handed to an application, and
//! what is shown and logged, as one trace of events.
#![tactic(auto)]

mod application;
mod display;
mod engine;
mod key;
mod known;
pub mod laws;
mod line;
mod line_program;
mod mode;
mod no_clock;
mod single_line;
mod stop;
mod streams;

pub use application::Application;
pub use display::Display;
pub use engine::{FILE_LINES, run};
pub use known::{Known, Own};
pub use line::run_lines;
pub use line_program::{LINE_KEYS, LineProgram, run_line_program, status_of};
pub use mode::Mode;
pub use no_clock::NoClock;
pub use single_line::run_line;
pub use stop::Stop;
pub use streams::run_over_streams;
