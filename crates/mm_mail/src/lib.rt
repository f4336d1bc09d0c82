//! Mail between the directories of a system: a second application of the engine, over the store of the EXEC, with a
//! grammar and rules of its own. A message is a file of the directory that receives it.
#![tactic(auto)]

mod acts;
mod application;
mod command;
mod delivery;
mod grammar;
pub mod laws;
mod mail;
mod mailbox;
mod message;
mod message_name;
mod program;
mod rules;
mod words;

pub use command::{Command, command_of};
pub use ex_system::{Status, Words};
pub use grammar::{MailGrammar, mail_grammar};
pub use mail::Mail;
pub use message::Message;
pub use message_name::MOST_MESSAGES;
pub use program::{MailProgram, mm20};
pub use rules::MailRules;
