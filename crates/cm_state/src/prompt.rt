// What a line is asked for with.
use crate::Label;

/// What a line is asked for with.
#[derive(Clone, Copy, Debug, PartialEq, Eq)]
pub enum Prompt {
    /// `@`, for a command.
    Main,
    /// `@@`, for a subcommand.
    Sub,
    /// A text of the program's own.
    Own(&'static str),
    /// A name that is made while the program runs, and what follows it, as `host(config-if)#` or `host> `.
    Named(Label, Label),
}
