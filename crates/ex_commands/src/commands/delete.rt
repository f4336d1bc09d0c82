// DELETE.
ghost use Rattle.std.specs.Prelude.{false, ◌≡◌};
ghost use Rattle.ex_commands.specs.Commands.Delete.{delete_of, deletes};
ghost use Rattle.ex_commands.specs.Outcome.{Outcome};
ghost use Rattle.ex_commands.specs.NameParts.{IsReadable, line_of};

use crate::fields::place_in;
use crate::lines::{Lines, put_lines};
use crate::{Acted, Command};
use cm_blocks::{Grammar, Role};
use cm_files::Names;
use cm_io::{Sink, Writer};
use cm_state::Session;
use ex_store::{Place, Store};

/// What a line of DELETE commands.
pub(crate) fn read<N: Names>(session: &Session, grammar: &Grammar, names: &N) -> Command
    requires { IsReadable session.now.fields }
    ensures { result ≡ delete_of (line_of grammar.now (N.catalogue names.now) session.now) }
{
    place_in(session.field_of(Role::Files), session, grammar, names).map_or(
        Command::Empty,
        |files| Command::Delete { files },
    )
}

/// Marks files as deleted. The lines are of the files as they are before, so they are put first; and then the files
/// are marked, whether or not the sink took them.
pub(crate) fn act<S: Sink>(store: &mut Store, files: &Place, out: &mut Writer<'_, S>) -> Acted
    ensures { Outcome S.Sink out.old out.new (deletes files.now store.old.state) false store.old.state
        store.new.state result }
{
    put_lines(store, files, Lines::Changed, out);
    store.mark(files);
    Acted::Ok
}
