// The run over the lines of a control file.
ghost use Rattle.std.specs.Prelude.{◌≡◌, ◌≤◌, ℕ, List, slice_get};
ghost use Rattle.cm_io.specs.Contents.{Contents};
ghost use Rattle.cm_run.specs.Cause.{ObeyCause};
ghost use Rattle.cm_run.specs.Observation.{observation};
ghost use Rattle.ex_batch.specs.Batch.{batch_of, limit_end};
ghost use Rattle.ex_batch.specs.Moments.{OverMoments};
ghost use Rattle.ex_batch.specs.Takes.{Runs, step_outcome};

use crate::file::ControlFile;
use crate::job::Job;
use crate::step::{Ended, Next, take_control};
use cm_blocks::Steps;
use cm_fields::Code;
use cm_io::{Clock, Sink};
use cm_run::Stop;
use std::sync::ledger::Ledger;

/// The most lines of a control file that a run uses. A line that is used again is counted again.
pub const CONTROL_LINES: u32 = 10_000;

// How a run ends that has used as many lines as it may.
fn limit_end(file: &ControlFile, place: usize) -> Ended
    ensures { result ≡ limit_end (slice_get file.now place) }
{
    match file.line(place) {
        Some(_) => Ended::Stopped(Code::LineLimit),
        None => Ended::Finished,
    }
}

/// Runs over the lines of a control file: shows each, and does what it is. A line of the EXEC's takes a moment, is
/// parsed under the state that it finds, its trials are counted, and it does what a line of a command file does, with
/// the command files that it takes. At most 10,000 lines are used.
pub fn run_batch<S: Sink, C: Clock, L: Ledger>(
    file: &ControlFile,
    job: &mut Job,
    screen: &mut S,
    clock: &mut C,
    steps: &mut Steps<L>,
) -> Result<Ended, Stop>
    // [batch-line] What stands is the trace of the run, or a cut of it; and where it was not cut, it ends as the run
    // does. That holds over the moments of a clock that tells, and of each other clock over some moments.
    ensures runs { OverMoments C.tells (C.left clock.old) (C.left clock.new) (λ given later.
        (log : Contents) → (keys : List ℕ) → (gets : ℕ) → Runs
        (observation (S.contents screen.old) log keys gets given steps.old job.old)
        (observation (S.contents screen.new) log keys gets later steps.new job.new)
        (batch_of file.now given job.old) result) }
    ensures later { S.faults screen.old ≤ S.faults screen.new }
    ensures cause { ObeyCause (S.faults screen.old) (S.faults screen.new) (step_outcome result) }
{
    let mut place = 0;
    for _line in 0..CONTROL_LINES {
        match take_control(file, place, job, screen, clock, steps) {
            Ok(Next::Line(next)) => place = next,
            Ok(Next::Over(end)) => return Ok(end),
            Err(stop) => return Err(stop),
        }
    }
    Ok(limit_end(file, place))
}
