// TAKE.
ghost use Rattle.std.specs.Prelude.{◌≡◌, ◌≤◌, length};
ghost use Rattle.ex_generations.specs.declared.file.TheConstants.{FILE_LIMIT};
ghost use Rattle.ex_commands.specs.Commands.Take.{bytes_of, take_of};
ghost use Rattle.ex_commands.specs.NameParts.{IsReadable, line_of};

use crate::Command;
use crate::fields::place_in;
use crate::lines::sources;
use cm_blocks::{Grammar, Role};
use cm_files::Names;
use cm_state::Session;
use ex_store::{Place, Store};

/// What a line of TAKE commands.
pub(crate) fn read<N: Names>(session: &Session, grammar: &Grammar, names: &N) -> Command
    requires { IsReadable session.now.fields }
    ensures { result ≡ take_of (line_of grammar.now (N.catalogue names.now) session.now) }
{
    place_in(session.field_of(Role::Files), session, grammar, names).map_or(
        Command::Empty,
        |file| Command::Take { file },
    )
}

/// What the file holds that a place means: the first of them where it means several, and nothing where it means none.
pub fn file_bytes<'a>(store: &'a Store, file: &Place) -> &'a [u8]
    ensures bytes { result.now ≡ bytes_of file.now store.now.state }
    ensures short { length result.now ≤ FILE_LIMIT }
{
    match sources(store, file).next() {
        Some(row) => row.file.bytes.as_slice(),
        None => b"",
    }
}
