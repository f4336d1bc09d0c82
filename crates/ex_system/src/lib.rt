//! A program over a store of files: what its words ask for, the store that it begins with, from an image or anew, the
//! image that is written at its end, and the messages of its statuses.
#![tactic(auto)]

mod ending;
mod form;
mod input;
pub mod laws;
mod message;
mod refusal;
mod saving;
mod words;

pub use cm_io::{Kind, Status, Words};
pub use ending::finish;
pub use form::{Form, in_out, is_name};
pub use input::{IMAGE_LIMIT, start};
pub use message::show_message;
pub use refusal::{refuse, refuse_usage, show_line};
pub use saving::save_image;
pub use words::{Pair, Triple, as_pair, as_triple};
