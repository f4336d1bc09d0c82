//! A session of a command line (COMND): the line under edit, and the parse of it that is held after each key.
#![tactic(auto)]

mod echo;
mod held;
mod label;
pub mod laws;
mod log;
mod parse;
mod prompt;
mod recall;
mod said;
mod session;
mod stack;
mod turn;

pub use echo::put_refusal;
pub use label::Label;
pub use prompt::Prompt;
pub use said::{node_of, part};
pub use session::Session;
pub use turn::Turn;
