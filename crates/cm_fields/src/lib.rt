//! The field functions of COMND that ask no catalogue, and what every field function shares: values,
//! refusals, and what a trial answers.
#![tactic(auto)]

mod code;
mod digits;
mod integer;
pub mod laws;
mod long_quotes;
mod mark;
mod numbers;
mod outside;
mod phrase;
mod quotes;
mod reason;
mod run;
mod skipped;
mod text;
mod trial;
mod value;

pub use code::Code;
pub use digits::{NUMBER_LIMIT, are_digits, value_of};
pub use integer::numeral;
pub use long_quotes::{long_quoted, unquote};
pub use mark::{comma, confirm};
pub use numbers::{NUMBER_TEXT_LIMIT, Numbers, Radix};
pub use outside::Outside;
pub use phrase::{noise, token};
pub use quotes::{quoted, unquoted};
pub use reason::{OWN_NUMBER, Reason};
pub use run::{may_be_field, number, run_field, word, word_run};
pub use skipped::skip;
pub use text::text_field;
pub use trial::{Try, said, span_of};
pub use value::{FileKind, Gen, Span, Spec, Value};
