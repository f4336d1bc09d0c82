// SET.
ghost use Rattle.std.specs.Prelude.{false, ◌≡◌, ◌≤◌};
ghost use Rattle.ex_store.specs.declared.limits.TheConstants.{RETENTION_LIMIT};
ghost use Rattle.ex_commands.specs.Commands.Set.{set_of, sets};
ghost use Rattle.ex_commands.specs.Outcome.{Outcome};
ghost use Rattle.ex_commands.specs.NameParts.{IsReadable, line_of};

use crate::fields::{count_in, place_in};
use crate::lines::{Lines, put_lines};
use crate::{Acted, Command};
use cm_blocks::{Grammar, Role};
use cm_files::Names;
use cm_io::{Sink, Writer};
use cm_state::Session;
use ex_store::{Place, Store};

/// What a line of SET commands.
pub(crate) fn read<N: Names>(session: &Session, grammar: &Grammar, names: &N) -> Command
    requires { IsReadable session.now.fields }
    ensures { result ≡ set_of (line_of grammar.now (N.catalogue names.now) session.now) }
{
    let keep = count_in(session.field_of(Role::Value));
    match (
        place_in(session.field_of(Role::Files), session, grammar, names),
        keep,
    ) {
        (Some(files), Some(keep)) => Command::Set { files, keep },
        _ => Command::Empty,
    }
}

/// Tells files how many generations they keep. The lines are of the files as they are before, as those of DELETE.
pub(crate) fn act<S: Sink>(
    store: &mut Store,
    files: &Place,
    keep: u8,
    out: &mut Writer<'_, S>,
) -> Acted
    requires { keep ≤ RETENTION_LIMIT }
    ensures { Outcome S.Sink out.old out.new (sets files.now keep store.old.state) false store.old.state
        store.new.state result }
{
    put_lines(store, files, Lines::Changed, out);
    store.set_keep(files, keep);
    Acted::Ok
}
