//! The file machine: directories with retention, logical names, files with generations that are deleted, undeleted
//! and expunged, and a print queue. A plan is prepared, with every growth that it needs, and then cannot fail: all
//! of it is done, or nothing.
#![tactic(auto)]

mod adding;
mod append;
mod apply;
mod build;
mod copy;
mod define;
mod directories;
mod directory;
mod draft;
mod family;
mod file_numbers;
mod files;
mod firsts;
mod key;
pub mod laws;
mod limits;
mod logical_names;
mod marks;
mod names;
mod parts;
mod place;
mod plan;
mod prepare;
mod print;
mod queue;
mod readers;
mod ready;
mod rename;
mod room;
mod row;
mod selection;
mod simulation;
mod store;
mod sweep;
mod unqueue;
mod write;

pub use directory::{Definition, DefinitionView, Directory, DirectoryView, Logical};
pub use draft::Draft;
pub use key::{Full, FullName, Key, NamePair, Pair};
pub use limits::{
    AFTER_LIMIT, COPIES_LIMIT, DIRECTORY_LIMIT, FORMS, LOGICAL_LIMIT, MOMENT_LIMIT, QUEUE_LIMIT,
    RETENTION_LIMIT, ROW_LIMIT, STORE_LIMIT,
};
pub use marks::page_count;
pub use parts::Parts;
pub use place::Place;
pub use plan::{Plan, Refusal};
pub use print::Request;
pub use queue::{QueueEntry, Queued, form_text};
pub use ready::{Reading, Ready, RowChange};
pub use row::{Row, RowView};
pub use selection::Selection;
pub use store::Store;
