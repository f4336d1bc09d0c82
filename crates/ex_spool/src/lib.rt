//! The print spooler: the entries of a print queue that are due are shown as pages, and the image is written without
//! them. The pages of a file are a call of their own, so that another program can print.
#![tactic(auto)]

mod banner;
mod body;
mod due;
mod entry;
pub mod laws;
mod pages;
mod program;
mod row;
mod texts;

pub use body::{PAGE_ROWS, put_body};
pub use due::DAY_SECONDS;
pub use ex_system::{Status, Words};
pub use program::spool20;
pub use row::{WIDEST_ROW, form_feed};
