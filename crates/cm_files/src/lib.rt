//! The catalogue that file specifications are looked up in: logical names, patterns, what a specification says
//! and which files it selects, and the field functions for users, directories and files (GTJFN).
#![tactic(auto)]

mod fields;
mod flags;
mod generation;
pub mod laws;
mod logical;
mod names;
mod neighbours;
mod one_directory;
mod parts;
mod pattern;
mod resolution;
mod row;
mod selection;
mod spec;

pub use fields::{directory, directory_after, file, file_after, user};
pub use flags::Flags;
pub use generation::GENERATION_LIMIT;
pub use logical::is_logical_name;
pub use names::Names;
pub use neighbours::select;
pub use one_directory::OneDirectory;
pub use pattern::matches;
pub use resolution::{by_device, by_directory, has_bad_wild, resolve, sought};
pub use row::{FileRow, LogicalName, Row};
pub use selection::{Sought, selects};
pub use spec::{SpecFault, part, read_spec};
