//! The line that is edited, and what each key is to its editor.
#![tactic(auto)]

mod key;
mod line;

pub use key::KeyClass;
pub use line::{Line, a_word_is_taken};
