// APPEND.
ghost use Rattle.std.specs.Prelude.{◌≡◌, true};
ghost use Rattle.ex_store.specs.Plan.{IsOneFile, IsSource};
ghost use Rattle.ex_commands.specs.Commands.Append.{append_of, appends};
ghost use Rattle.ex_commands.specs.Outcome.{Outcome};
ghost use Rattle.ex_commands.specs.NameParts.{IsReadable, line_of};

use crate::fields::between;
use crate::pairs::Origin;
use crate::plans::play;
use crate::{Acted, Command};
use cm_blocks::Grammar;
use cm_files::Names;
use cm_io::{Sink, Writer};
use cm_state::Session;
use ex_store::{Place, Plan, Store};

/// What a line of APPEND commands.
pub(crate) fn read<N: Names>(session: &Session, grammar: &Grammar, names: &N) -> Command
    requires { IsReadable session.now.fields }
    ensures { result ≡ append_of (line_of grammar.now (N.catalogue names.now) session.now) }
{
    between(session, grammar, names).map_or(
        Command::Empty,
        |(from, to)| Command::Append { from, to },
    )
}

/// Puts the bytes of files after those of one file.
pub(crate) fn act<S: Sink>(
    store: &mut Store,
    from: &Place,
    to: &Place,
    moment: u64,
    out: &mut Writer<'_, S>,
) -> Acted
    requires from { IsSource from.now store.old.state }
    requires to { IsOneFile to.now store.old.state.directories }
    ensures { Outcome S.Sink out.old out.new (appends from.now to.now moment store.old.state) true
        store.old.state store.new.state result }
{
    let plan = Plan::Append {
        from: from.copy(),
        to: to.copy(),
    };
    play(store, plan, Origin::Files, moment, out)
}
