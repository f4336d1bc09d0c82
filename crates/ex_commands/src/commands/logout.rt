// LOGOUT.
#![tactic(auto, using(cm_io::proofs::Texts::each))]

ghost use Rattle.std.specs.Prelude.{false, ◌≡◌};
ghost use Rattle.cm_io.specs.Writer.{Writes};
ghost use Rattle.ex_commands.specs.Commands.Logout.{farewell_line, logs_out};
ghost use Rattle.ex_commands.specs.Outcome.{Outcome};

use crate::Acted;
use crate::acts::connected;
use crate::texts::farewell;
use cm_io::{Sink, Writer};
use ex_store::Store;

#[tactic(auto, using(cm_io::proofs::Texts::texts), unfolding(crate::specs::Commands::Logout::farewell_line))]
fn put_farewell<S: Sink>(out: &mut Writer<'_, S>)
    ensures { Writes S.Sink out.old out.new farewell_line }
{
    out.put_line(farewell());
}

/// Removes the marked files of the connected directory, and ends the run.
pub(crate) fn act<S: Sink>(store: &mut Store, out: &mut Writer<'_, S>) -> Acted
    ensures { Outcome S.Sink out.old out.new (logs_out store.old.state) false
        store.old.state store.new.state result }
{
    let directory = connected(store);
    store.expunge(directory.as_str());
    put_farewell(out);
    Acted::Logout
}
