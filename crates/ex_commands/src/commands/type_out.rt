// TYPE.
ghost use Rattle.std.specs.Prelude.{false, ◌≡◌};
ghost use Rattle.ex_commands.specs.Commands.TypeOut.{type_of, types_out};
ghost use Rattle.ex_commands.specs.Outcome.{Outcome};
ghost use Rattle.ex_commands.specs.NameParts.{IsReadable, line_of};

use crate::fields::place_in;
use crate::lines::{Lines, put_lines};
use crate::{Acted, Command};
use cm_blocks::{Grammar, Role};
use cm_files::Names;
use cm_io::{Sink, Writer};
use cm_state::Session;
use ex_store::{MOMENT_LIMIT, Place, Store};

/// What a line of TYPE commands.
pub(crate) fn read<N: Names>(session: &Session, grammar: &Grammar, names: &N) -> Command
    requires { IsReadable session.now.fields }
    ensures { result ≡ type_of (line_of grammar.now (N.catalogue names.now) session.now) }
{
    place_in(session.field_of(Role::Files), session, grammar, names).map_or(
        Command::Empty,
        |files| Command::TypeOut { files },
    )
}

/// Shows what files hold, and notes that they are read at this moment, whether or not the sink took it.
pub(crate) fn act<S: Sink>(
    store: &mut Store,
    files: &Place,
    moment: u64,
    out: &mut Writer<'_, S>,
) -> Acted
    ensures { Outcome S.Sink out.old out.new (types_out files.now moment store.old.state) false store.old.state
        store.new.state result }
{
    put_lines(store, files, Lines::Held, out);
    store.touch(files, moment.min(MOMENT_LIMIT));
    Acted::Ok
}
