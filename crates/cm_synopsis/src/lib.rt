//! The reader of a command language that an author tells in a text: lines, their words, and the parts of a command.
#![tactic(auto)]

mod bytes;
mod command;
mod cut;
mod fault;
mod field;
mod follow;
mod help;
mod kinds;
mod language;
pub mod laws;
mod line;
mod opening;
mod part;
mod reason;
mod saying;
mod short;
mod way;

pub use command::{Command, read_command};
pub use cut::{Word, words};
pub use fault::Fault;
pub use field::{KIND_LIMIT, Kind, Kinds};
pub use kinds::{LineKind, line_kind};
pub use language::{Language, TEXT_SIZE_LIMIT, TextFault, read_language};
pub use line::{HELP_WORD_LIMIT, KeywordHelp, LIST_LIMIT, NameList};
pub use opening::BRACKET_LIMIT;
pub use part::{Bracket, NUMBER_LIMIT, Part, read_part};
pub use reason::Reason;
pub use way::{Link, Step, Way, way_of};
