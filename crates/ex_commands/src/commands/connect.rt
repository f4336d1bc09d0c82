// CONNECT.
ghost use Rattle.std.specs.Prelude.{true, ◌≡◌};
ghost use Rattle.ex_store.specs.State.{has_directory};
ghost use Rattle.ex_commands.specs.Commands.Connect.{connect_of, connects};
ghost use Rattle.ex_commands.specs.NameParts.{IsReadable, line_of};

use crate::Command;
use crate::fields::directory_in;
use cm_blocks::{Grammar, Role};
use cm_files::Names;
use cm_state::Session;
use cm_text::Name;
use ex_store::Store;

/// What a line of CONNECT commands.
pub(crate) fn read<N: Names>(session: &Session, grammar: &Grammar, names: &N) -> Command
    requires { IsReadable session.now.fields }
    ensures { result ≡ connect_of (line_of grammar.now (N.catalogue names.now) session.now) }
{
    directory_in(session.field_of(Role::Files), session, grammar, names).map_or(
        Command::Empty,
        |directory| Command::Connect { directory },
    )
}

/// Connects a directory.
pub(crate) fn act(store: &mut Store, directory: &Name)
    requires { has_directory directory.now store.old.state.directories ≡ true }
    ensures { store.new.state ≡ (connects directory.now store.old.state).state }
{
    store.connect(directory.as_str());
}
