// Commands that wait for subcommands.
ghost use Rattle.std.specs.Prelude.{◌≡◌};
ghost use Rattle.ex_commands.specs.Command.{is_pending, subcommand_node};

use crate::Command;
use ex_grammar::{BUILD_SUBCOMMANDS, COMMANDS, DIRECTORY_SUBCOMMANDS};

impl Command {
    /// Whether it waits for subcommands.
    pub fn is_pending(&self) -> bool
        ensures { result ≡ is_pending self.now }
    {
        match self {
            Command::Build { sub, .. } => *sub,
            Command::Directory { sub, .. } => *sub,
            _ => false,
        }
    }

    /// The node where its subcommands begin; that of a command where it takes none.
    pub fn subcommand_node(&self) -> u16
        ensures { result ≡ subcommand_node self.now }
    {
        match self {
            Command::Build { .. } => BUILD_SUBCOMMANDS,
            Command::Directory { .. } => DIRECTORY_SUBCOMMANDS,
            _ => COMMANDS,
        }
    }
}
