// A line that is handed in.
ghost use Rattle.std.specs.Prelude.{◌≢◌, ◌≤◌, ℕ, List, Err, Some};
ghost use Rattle.cm_text.specs.Text.{IsLine};
ghost use Rattle.cm_io.specs.Contents.{Contents};
ghost use Rattle.cm_run.specs.Cause.{ObeyCause};
ghost use Rattle.cm_run.specs.Cut.{Traces};
ghost use Rattle.cm_run.specs.SingleLine.{handed_trace};
ghost use Rattle.cm_run.specs.Semantics.{IsSparing};
ghost use Rattle.cm_run.specs.Observation.{observation};
ghost use Rattle.cm_run.specs.Trace.{file_line_trace, line_by};

use crate::line::parse_line;
use crate::{Application, Mode, Stop, run_lines};
use cm_blocks::Steps;
use cm_io::Sink;
use std::sync::ledger::Ledger;

// Takes a line that is handed in, if the next key is for one: parses it under the state that it finds, and does what it
// says.
#[tactic(auto, using(crate::proofs::Joins::traces_none, crate::proofs::FileLines::line_traces, crate::proofs::Memory::acts_spare), unfolding(crate::specs::Cause::ObeyCause))]
fn take_handed<A: Application, S: Sink, L: Ledger>(
    app: &mut A,
    line: &[u8],
    moment: u64,
    screen: &mut S,
    steps: &mut Steps<L>,
) -> Result<(), Stop>
    requires line { IsLine line.now }
    ensures traces { (log : Contents) → (keys : List ℕ) → (gets : ℕ) → (moments : List ℕ) → Traces
        (observation (S.contents screen.old) log keys gets moments steps.old app.old)
        (observation (S.contents screen.new) log keys gets moments steps.new app.new)
        (file_line_trace A.means moment app.old (line_by (A.means.mode_of app.old) (Some line.now))) result }
    ensures later { S.faults screen.old ≤ S.faults screen.new }
    ensures cause { ObeyCause (S.faults screen.old) (S.faults screen.new) result }
    ensures spares { IsSparing A.means → result ≢ Err Stop.Memory }
{
    let Mode::Line { node, .. } = app.mode() else {
        return Ok(());
    };
    let session = parse_line(app, node, line, steps);
    app.obey_file_line(&session, moment, screen)
}

/// Takes a line that is handed in, if the next key is for one, as a run takes one of a command file: it is parsed under
/// the state that it finds, its trials are counted, and it does what it says. Then the lines of the command files
/// that it takes are taken, at most 10,000; the line itself is none of these.
#[tactic(auto, using(crate::proofs::Causes::obey_cause_on), unfolding(crate::specs::Cause::ObeyCause))]
pub fn run_line<A: Application, S: Sink, L: Ledger>(
    app: &mut A,
    line: &[u8],
    moment: u64,
    screen: &mut S,
    steps: &mut Steps<L>,
) -> Result<(), Stop>
    requires line { IsLine line.now }
    ensures traces { (log : Contents) → (keys : List ℕ) → (gets : ℕ) → (moments : List ℕ) → Traces
        (observation (S.contents screen.old) log keys gets moments steps.old app.old)
        (observation (S.contents screen.new) log keys gets moments steps.new app.new)
        (handed_trace A.means moment app.old line.now) result }
    ensures later { S.faults screen.old ≤ S.faults screen.new }
    ensures cause { ObeyCause (S.faults screen.old) (S.faults screen.new) result }
    ensures spares { IsSparing A.means → result ≢ Err Stop.Memory }
{
    match take_handed(app, line, moment, screen, steps) {
        Ok(()) => run_lines(app, moment, screen, steps),
        Err(stop) => Err(stop),
    }
}
