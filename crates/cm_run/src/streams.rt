// A program of lines alone as a process runs it.
ghost use Rattle.std.specs.Prelude.{◌≡◌, ◌<◌, ℕ, [], IsTrue};
ghost use Rattle.cm_io.specs.Contents.{Number};
ghost use Rattle.cm_run.specs.LineRun.{LineCause, LineRun};
ghost use Rattle.cm_run.specs.Observation.{observation};

use crate::{LineProgram, Stop, run_line_program};
use cm_blocks::Steps;
use cm_io::{Sink, Source};
use std::marker::Brand;
use std::sync::ledger::{Blank, Ledger};

/// Runs a program of lines alone, as `run_line_program` does, over keys and a screen that a `main` has made, as the
/// standard streams are: the counter of trials is its own. So a `main` makes the program and the streams, calls this,
/// and ends with the `status_of` its answer. Memory does not run out, and there is no log.
pub fn run_over_streams<P: LineProgram, K: Source, S: Sink>(
    rt: &HostRuntime,
    program: &mut P,
    keys: &mut K,
    screen: &mut S,
) -> Result<(), Stop>
    // What stands is the trace of the run, or a cut of it, from 0 trials on.
    ensures stands { IsTrue K.tells → (trials : ℕ) × LineRun P.means
        (observation (S.contents screen.old) (Number 0) (K.left keys.old) (K.gets keys.old) [] 0 program.old)
        (observation (S.contents screen.new) (Number 0) (K.left keys.new) (K.gets keys.new) [] trials program.new)
        result }
    // When each answer comes, by the counts of faults.
    ensures cause { LineCause (K.faults keys.old) (K.faults keys.new)
        (S.faults screen.old) (S.faults screen.new) result }
{
    run_counted::<P, K, S, Brand>(rt, Blank::new(1), program, keys, screen)
}

// Makes the counter of trials for this ledger, and runs the program.
fn run_counted<P: LineProgram, K: Source, S: Sink, L: Ledger>(
    rt: &HostRuntime,
    blank: Blank,
    program: &mut P,
    keys: &mut K,
    screen: &mut S,
) -> Result<(), Stop>
    requires name { blank.name ≡ L.name }
    requires parts { blank.parts ≡ L.parts }
    requires some { 0 < L.parts }
    ensures stands { IsTrue K.tells → (trials : ℕ) × LineRun P.means
        (observation (S.contents screen.old) (Number 0) (K.left keys.old) (K.gets keys.old) [] 0 program.old)
        (observation (S.contents screen.new) (Number 0) (K.left keys.new) (K.gets keys.new) [] trials program.new)
        result }
    ensures cause { LineCause (K.faults keys.old) (K.faults keys.new)
        (S.faults screen.old) (S.faults screen.new) result }
{
    let mut steps: Steps<L> = Steps::new(rt, blank);
    run_line_program(program, keys, screen, &mut steps)
}
