// What commands do to a store.
// A command is a definition over the state (Semantics); act is one match of calls that each ensure one clause of it.
// That reading changes nothing is a lemma, so an edit meets the clause and no answer.
#![tactic(auto, using(cm_io::proofs::Texts::each))]

ghost use Rattle.std.specs.Prelude.{◌≡◌, ◌≤◌};
ghost use Rattle.cm_io.specs.Fault.{PutCause};
ghost use Rattle.cm_io.specs.Contents.{Adds};
ghost use Rattle.cm_io.specs.Writer.{Writes};
ghost use Rattle.mm_mail.specs.Command.{MayAct};
ghost use Rattle.mm_mail.specs.Semantics.{act_of};

use crate::command::Command;
use crate::mailbox::{delete, put_headers, put_message};
use cm_io::{Put, Sink, Writer};
use ex_store::Store;

// Does a command, and writes its reply.
#[tactic(auto, using(cm_io::proofs::Texts::each, cm_io::proofs::Texts::writes_none, crate::proofs::Deliveries::reads_stays), unfolding(crate::specs::Semantics::act_of))]
fn do_command<S: Sink>(store: &mut Store, command: &Command, out: &mut Writer<'_, S>)
    requires { MayAct command.now store.old.state }
    ensures written { Writes S.Sink out.old out.new (act_of command.now store.old.state).reply }
    ensures state { store.new.state ≡ (act_of command.now store.old.state).state }
{
    match command {
        Command::Empty => {}
        Command::Delete(number) => delete(store, *number, out),
        Command::Headers => put_headers(store, out),
        Command::Quit => {}
        Command::Read(number) => put_message(store, *number, out),
        Command::Send { .. } => {}
    }
}

/// Does what a command does to a store, and shows its reply. It acts also where the screen fails.
#[tactic(auto, using(cm_io::proofs::Writers::finish_puts))]
pub(crate) fn act<S: Sink>(store: &mut Store, command: &Command, screen: &mut S) -> Put
    requires { MayAct command.now store.old.state }
    ensures reply { Adds (S.contents screen.old) (S.contents screen.new)
        (act_of command.now store.old.state).reply result }
    ensures state { store.new.state ≡ (act_of command.now store.old.state).state }
    ensures later { S.faults screen.old ≤ S.faults screen.new }
    ensures cause { PutCause (S.faults screen.old) (S.faults screen.new) result }
{
    let mut out = Writer::new(screen);
    do_command(store, command, &mut out);
    out.finish()
}
