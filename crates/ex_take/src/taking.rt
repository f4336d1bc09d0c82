// A command file that is taken without keys.
ghost use Rattle.std.specs.Prelude.{◌≡◌, ◌≤◌, ℕ, List, Ok, true};
ghost use Rattle.cm_io.specs.Contents.{Contents};
ghost use Rattle.cm_run.specs.Cause.{ObeyCause};
ghost use Rattle.cm_run.specs.Cut.{Traces};
ghost use Rattle.cm_run.specs.Observation.{observation};
ghost use Rattle.ex_store.specs.Plan.{IsSource};
ghost use Rattle.ex_take.specs.Taking.{Rests, Takes, is_at_rest, outcome_of, take_trace, took_by, took_of};

use crate::Exec;
use cm_blocks::Steps;
use cm_fields::Code;
use cm_io::Sink;
use cm_run::{Stop, run_lines};
use ex_store::Place;
use std::sync::ledger::Ledger;

/// What came of a command file.
#[derive(Clone, Copy, Debug, PartialEq, Eq)]
pub enum Took {
    /// All its lines were taken, and those of the files that they take.
    Ok,
    /// A line of it was LOGOUT.
    Logout,
    /// A line of it was refused: why is shown, no other line is taken, and what the lines before have done stands.
    Stopped(Code),
    /// There was no memory for a file that was to be taken, or for what a line commands. The lines before have acted.
    NoMemory,
    /// The sink failed.
    Failed,
}

/// Takes a file's lines as commands, one after the other, as a typed TAKE of it does at this moment: each is parsed
/// under the state that it finds, and what its trials cost is counted. Nothing but replies and refusals is shown.
/// However it ends, nothing is left to be done: a file that is cut short is closed.
pub fn take<S: Sink, L: Ledger>(
    exec: &mut Exec,
    file: &Place,
    moment: u64,
    screen: &mut S,
    steps: &mut Steps<L>,
) -> Took
    requires rest { is_at_rest exec.old ≡ true }
    requires source { IsSource file.now exec.old.interpreter.state }
    // [take] What stands is the trace of the file, or a cut of it.
    ensures takes { (log : Contents) → (keys : List ℕ) → (gets : ℕ) → (moments : List ℕ) → Takes
        (observation (S.contents screen.old) log keys gets moments steps.old exec.old)
        (observation (S.contents screen.new) log keys gets moments steps.new exec.new)
        (take_trace exec.old file.now moment) (outcome_of result) }
    // Where it was not cut, it is told by what it left.
    ensures outcome { outcome_of result ≡ Ok tt → result ≡ took_of exec.new }
    ensures rest { Rests result exec.new }
    ensures later { S.faults screen.old ≤ S.faults screen.new }
    ensures cause { ObeyCause (S.faults screen.old) (S.faults screen.new) (outcome_of result) }
{
    let took = take_lines(exec, file, moment, screen, steps);
    exec.rest();
    took
}

// Takes a file's lines, and leaves what a cut leaves.
fn take_lines<S: Sink, L: Ledger>(
    exec: &mut Exec,
    file: &Place,
    moment: u64,
    screen: &mut S,
    steps: &mut Steps<L>,
) -> Took
    requires source { IsSource file.now exec.old.interpreter.state }
    ensures traces { (log : Contents) → (keys : List ℕ) → (gets : ℕ) → (moments : List ℕ) → Traces
        (observation (S.contents screen.old) log keys gets moments steps.old exec.old)
        (observation (S.contents screen.new) log keys gets moments steps.new exec.new)
        (take_trace exec.old file.now moment) (outcome_of result) }
    ensures outcome { outcome_of result ≡ Ok tt → result ≡ took_of exec.new }
    ensures later { S.faults screen.old ≤ S.faults screen.new }
    ensures cause { ObeyCause (S.faults screen.old) (S.faults screen.new) (outcome_of result) }
{
    match exec.take(file, screen) {
        Ok(()) => {
            let stop = run_lines(exec, moment, screen, steps);
            took_by(exec, stop)
        }
        Err(stop) => took_by(exec, Err(stop)),
    }
}

// What came of a file whose lines went so.
fn took_by(exec: &Exec, end: Result<(), Stop>) -> Took
    ensures { result ≡ took_by exec.now end }
{
    match end {
        Ok(()) => took_of(exec),
        Err(Stop::Memory) => Took::NoMemory,
        Err(_) => Took::Failed,
    }
}

// What came of one whose lines were not cut short.
fn took_of(exec: &Exec) -> Took
    ensures { result ≡ took_of exec.now }
{
    if exec.has_ended() {
        return Took::Logout;
    }
    match exec.stop() {
        Some(code) => Took::Stopped(code),
        None => Took::Ok,
    }
}
