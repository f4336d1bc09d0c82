// A command that waits for its subcommands.
use ex_commands::Command;

/// A command that waits for its subcommands.
#[derive(Drop)]
pub struct Pending {
    /// The command, with the subcommands that were given so far.
    pub command: Command,
    /// The moment of its main line.
    pub moment: u64,
}
