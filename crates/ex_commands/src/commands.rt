// The commands, each in a module of its own: what a line of it commands, what it does and what it shows.
pub(crate) mod append;
pub(crate) mod build;
pub(crate) mod connect;
pub(crate) mod copy;
pub(crate) mod define;
pub(crate) mod delete;
pub(crate) mod directory;
pub(crate) mod expunge;
pub(crate) mod information;
pub(crate) mod logout;
pub(crate) mod print;
pub(crate) mod rename;
pub(crate) mod set;
pub(crate) mod take;
pub(crate) mod type_out;
pub(crate) mod undelete;
