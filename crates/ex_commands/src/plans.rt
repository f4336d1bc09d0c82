// Plans are done, with a line for each pair of files, and what was typed in is written.
ghost use Rattle.std.specs.Prelude.{◌≤◌, true};
ghost use Rattle.ex_store.specs.Plan.{IsTarget, MayPlan, planned};
ghost use Rattle.ex_commands.specs.Answer.{ActCause, Answers};
ghost use Rattle.ex_commands.specs.Commands.Copy.{writes};
ghost use Rattle.ex_commands.specs.Effect.{plays};
ghost use Rattle.ex_commands.specs.Outcome.{Outcome};

use crate::acted::answer_by;
use crate::acts::refuse;
use crate::pairs::{Origin, put_pairs};
use crate::{Acted, Data};
use cm_io::{Sink, Writer};
use ex_generations::Bytes;
use ex_store::{Place, Plan, Refusal, Store};

/// Does all of a plan, or nothing where it is refused. Its lines are put before it is done, and then it is done
/// whether or not the sink took them.
pub(crate) fn play<S: Sink>(
    store: &mut Store,
    plan: Plan,
    origin: Origin,
    moment: u64,
    out: &mut Writer<'_, S>,
) -> Acted
    requires { MayPlan plan store.old.state }
    ensures { Outcome S.Sink out.old out.new
        (plays origin (planned plan moment store.old.state) store.old.state) true store.old.state store.new.state
        result }
{
    match store.prepare(plan, moment) {
        Ok(ready) => {
            put_pairs(origin, &ready, out);
            store.apply(ready);
            Acted::Ok
        }
        Err(Refusal::Code(code)) => refuse(code, out),
        Err(Refusal::NoMemory) => Acted::NoMemory,
    }
}

// Writes what was typed in as a file.
#[tactic(auto, unfolding(crate::specs::Commands::Copy::writes))]
fn write<S: Sink>(
    store: &mut Store,
    to: &Place,
    typed: Data,
    moment: u64,
    out: &mut Writer<'_, S>,
) -> Acted
    requires { IsTarget to.now store.old.state.directories }
    ensures { Outcome S.Sink out.old out.new (writes to.now typed moment store.old.state) true store.old.state
        store.new.state result }
{
    let plan = Plan::Write {
        to: to.copy(),
        bytes: Bytes::new(typed.into_vec()),
    };
    play(store, plan, Origin::Terminal, moment, out)
}

/// Writes what was typed in as a file, at a moment, and puts the reply to it.
///
/// The answer is Refused(code) exactly where the file is refused with that code; the reason is put, and nothing
/// changes. With NoMemory nothing is put or changed. Failed comes only where the sink failed: a part of what is to be
/// put is put, and the file is written, or refused, all the same. The memory for files is that of the store; none but
/// that is taken today.
#[tactic(auto, using(crate::proofs::Reports::outcome_reports))]
pub fn write_data<S: Sink>(
    store: &mut Store,
    to: &Place,
    typed: Data,
    moment: u64,
    sink: &mut S,
) -> Acted
    requires { IsTarget to.now store.old.state.directories }
    ensures acts { Answers (S.contents sink.old) (S.contents sink.new) (writes to.now typed moment store.old.state) true
        store.old.state store.new.state result }
    ensures later { S.faults sink.old ≤ S.faults sink.new }
    ensures cause { ActCause (S.faults sink.old) (S.faults sink.new) result }
{
    let mut out = Writer::new(sink);
    let answer = write(store, to, typed, moment, &mut out);
    answer_by(answer, out.finish())
}
