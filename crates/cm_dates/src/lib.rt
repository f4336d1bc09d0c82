//! Dates: the date field of COMND, and the text that a day is shown as.
#![tactic(auto)]

mod calendar;
mod field;
pub mod laws;
mod months;
mod written;

pub use field::date;
pub use written::{DAY_LIMIT, DAY_TEXT_LIMIT, day_text};
