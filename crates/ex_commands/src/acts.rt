// Commands are done.
#![tactic(auto, using(cm_io::proofs::Texts::each))]

ghost use Rattle.std.specs.Prelude.{Bool, true, ◌≡◌, ◌≤◌};
ghost use Rattle.ex_store.specs.State.{State, has_directory};
ghost use Rattle.ex_commands.specs.Act.{act_of};
ghost use Rattle.ex_commands.specs.Answer.{ActCause, Answers, MayAct, may_allocate};
ghost use Rattle.ex_commands.specs.Effect.{refuses};
ghost use Rattle.ex_commands.specs.Outcome.{Outcome};

use crate::acted::answer_by;
use crate::commands::{
    append, build, connect, copy, define, delete, directory, expunge, information, logout, print,
    rename, set, type_out, undelete,
};
use crate::lines::Days;
use crate::{Acted, Command};
use cm_fields::Code;
use cm_io::{Sink, Writer};
use cm_state::put_refusal;
use cm_text::Name;
use ex_store::Store;

/// Does a command at a moment, in seconds since 1-JAN-1970, and puts the reply to it.
///
/// The answer is Refused(code) exactly where the command is refused with that code; the reason is put, and nothing
/// changes. It is Pending exactly where the command waits for its subcommands, and nothing is put or changed. It is
/// Data for COPY TTY: that is not refused, whose file is typed in next, Take for TAKE, whose lines are taken next, and
/// Logout for LOGOUT. NoMemory comes only for APPEND, BUILD that waits for no subcommand, COPY, DEFINE with a
/// directory, PRINT and RENAME, and nothing is put or changed. Failed comes only where the sink failed: a part of what
/// is to be put is put, and the command has acted all the same. No memory is taken but through the store.
#[tactic(auto, using(crate::proofs::Reports::outcome_reports))]
pub fn act<S: Sink>(store: &mut Store, command: &Command, moment: u64, sink: &mut S) -> Acted
    requires { MayAct command.now store.old.state }
    // [cut-reply]
    ensures acts { Answers (S.contents sink.old) (S.contents sink.new) (act_of command.now moment store.old.state)
        (may_allocate command.now) store.old.state store.new.state result }
    ensures later { S.faults sink.old ≤ S.faults sink.new }
    ensures cause { ActCause (S.faults sink.old) (S.faults sink.new) result }
{
    let mut out = Writer::new(sink);
    let answer = do_command(store, command, moment, &mut out);
    answer_by(answer, out.finish())
}

// Does a command, and writes the reply to it.
#[tactic(auto, using(cm_io::proofs::Texts::each), unfolding(crate::specs::Act::act_of))]
fn do_command<S: Sink>(
    store: &mut Store,
    command: &Command,
    moment: u64,
    out: &mut Writer<'_, S>,
) -> Acted
    requires { MayAct command.now store.old.state }
    ensures { Outcome S.Sink out.old out.new (act_of command.now moment store.old.state) (may_allocate command.now)
        store.old.state store.new.state result }
{
    match command {
        Command::Empty => Acted::Ok,
        Command::Append { from, to } => append::act(store, from, to, moment, out),
        Command::Build {
            directory,
            retention,
            sub,
        } => build::act(store, directory, *retention, *sub, moment, out),
        Command::Connect { directory } => {
            connect::act(store, directory);
            Acted::Ok
        }
        Command::Copy { from, to } => copy::act(store, from, to, moment, out),
        Command::CopyTty { to } => copy::begin(to, out),
        Command::Define { name, directory } => {
            define::act(store, name, directory.as_ref(), moment, out)
        }
        Command::Delete { files } => delete::act(store, files, out),
        Command::Directory {
            files,
            since,
            before,
            deleted,
            read,
            sub,
        } => {
            let days = Days {
                since: *since,
                before: *before,
            };
            directory::act(store, files, days, *deleted, *read, *sub, out)
        }
        Command::Expunge { directory } => expunge::act(store, directory.as_ref(), out),
        Command::Information { what } => information::act(store, *what, out),
        Command::Logout => logout::act(store, out),
        Command::Print {
            files,
            copies,
            form,
            after,
            job,
            note,
        } => {
            let request = print::request(*form, *after, job, note);
            print::act(store, files, *copies, request, moment, out)
        }
        Command::Remark => Acted::Ok,
        Command::Rename { from, to } => rename::act(store, from, to, moment, out),
        Command::Set { files, keep } => set::act(store, files, *keep, out),
        Command::Take { .. } => Acted::Take,
        Command::TypeOut { files } => type_out::act(store, files, moment, out),
        Command::Undelete { files } => undelete::act(store, files, out),
    }
}

/// Refuses a command with this code: puts why, and answers so. In every state that is the outcome of an act that
/// refuses.
pub fn refuse<S: Sink>(code: Code, out: &mut Writer<'_, S>) -> Acted
    ensures { (state : State) → (lacks : Bool) → Outcome S.Sink out.old out.new
        (refuses code state) lacks state state result }
{
    let code = &code;
    put_refusal(*code, out);
    Acted::Refused(*code)
}

/// The name of the connected directory.
pub(crate) fn connected(store: &Store) -> Name
    ensures name { result ≡ store.now.state.connected }
    ensures there { has_directory result store.now.state.directories ≡ true }
{
    Name::new(store.parts().connected().as_str())
}
