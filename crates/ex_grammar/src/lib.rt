//! The grammar of the EXEC: its nodes and keyword tables, and the rules of its own kinds of field.
#![tactic(auto)]

mod code;
mod graph;
pub mod laws;
mod node;
mod nodes;
mod retention;
mod rules;
mod tables;

pub use code::{
    AFTER, APPEND, BEFORE, BUILD, CONNECT, COPIES, COPY, DEFINE, DELETE, DELETED, DIRECTORY,
    DIRECTORY_TOPIC, EXPUNGE, FILE, FORMS, GENERATION_RETENTION_COUNT, GENERATIONS, INFORMATION,
    JOBNAME, LOGICAL_NAMES, LOGOUT, NOTE, OUTPUT_REQUESTS, PRINT, READ, REMARK, RENAME, SET, SINCE,
    TAKE, TYPE, UNDELETE, VERSION,
};
pub use graph::grammar;
pub use node::{BUILD_SUBCOMMANDS, COMMANDS, DIRECTORY_SUBCOMMANDS};
pub use rules::ExecRules;
