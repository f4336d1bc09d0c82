//! The words that every crate shares: classes of bytes, letters without case, names, decimal digits, search by
//! halving, the lines of a text, and what a screen is given.
#![tactic(auto)]

mod alike;
mod byte_set;
mod bytes;
mod case;
mod digits;
pub mod laws;
mod lines;
mod name;
mod search;
mod shown;
mod text;

pub use alike::common_len;
pub use byte_set::ByteSet;
pub use bytes::{is_blank, is_line_byte, is_name, is_shown, is_text, is_word};
pub use case::{begins_with, equals};
pub use digits::{DIGIT_LIMIT, decimal_digits};
pub use lines::{LineEnd, first_line};
pub use name::{NAME_LIMIT, Name, pad};
pub use search::seek;
pub use shown::{
    bell, control_c, end_of_line, join_shown, printing_byte, question, rubout, screen_byte,
};
pub use text::{JOIN, LINE_LIMIT, TEXT_LIMIT, ends_in_hyphen};
