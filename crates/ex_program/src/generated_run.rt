// A generated run.
ghost use Rattle.std.specs.Prelude.{◌≡◌, ◌≤◌, ◌+◌, IfOk, OnErr};
ghost use Rattle.cm_io.specs.Contents.{Number, add};
ghost use Rattle.cm_run.specs.Event.{trials_of};
ghost use Rattle.ex_program.specs.declared.progress.TheConstants.{GENERATED_LINES};
ghost use Rattle.ex_run.specs.Over.{closing};
ghost use Rattle.ex_program.specs.Summary.{LacksMemory, generated_trace, summary_of};

use crate::generator::Generator;
use crate::progress::GENERATED_KEYS;
use crate::summary::Summary;
use cm_blocks::Steps;
use cm_io::{CountSink, NoMemory, Sink};
use cm_run::{NoClock, Own, Stop, run};
use cm_text::end_of_line;
use ex_store::Store;
use ex_take::Exec;
use std::alloc::Global;
use std::sync::ledger::Ledger;

// The error of a run that was cut short: lack of memory is all that cuts one short here. A proof is told so.
fn error_of(_why: Stop) -> NoMemory
    requires { _why ≡ Stop.Memory }
    ensures { _why ≡ Stop.Memory }
{
    NoMemory
}

// Ends the line that is open, where LOGOUT has not ended the run.
#[tactic(auto, using(cm_io::proofs::Additions::add_none))]
fn end_line(ended: bool, screen: &mut CountSink)
    ensures { Number screen.new ≡ add (Number screen.old) (closing ended) }
{
    if !ended {
        screen.put(end_of_line());
    }
}

/// Runs the EXEC over the keys of so many generated lines, from the first store, without a log, at the moment 0 for
/// each line, and sums up what came of it. `steps` counts the trials. NoMemory where memory runs out.
pub fn summarize<L: Ledger>(
    alloc: Global,
    lines: u32,
    steps: &mut Steps<L>,
) -> Result<Summary, NoMemory>
    requires lines { lines ≤ GENERATED_LINES }
    // [summary]
    ensures summary { IfOk result (λ summary. summary ≡ summary_of lines) }
    // The counter has risen by what the trials of all keys cost ..
    ensures counted { IfOk result (λ summary. steps.new ≡ steps.old + trials_of (generated_trace lines)) }
    // .. and where memory runs out, before the run or at an act of it, by those before.
    ensures wanting { OnErr result (LacksMemory lines steps.old steps.new) }
{
    let mut exec = Exec::new(alloc, Own::new(alloc)?, Store::new(alloc)?);
    let mut keys = Generator::new(lines);
    let all = keys.count_left();
    let mut screen = CountSink::new();
    let stop = run(
        GENERATED_KEYS,
        false,
        &mut exec,
        &mut keys,
        &mut screen,
        &mut CountSink::new(),
        &mut NoClock,
        steps,
    );
    match stop {
        Ok(()) => end_line(exec.has_ended(), &mut screen),
        Err(why) => return Err(error_of(why)),
    }
    Ok(Summary {
        lines,
        refused: exec.refused(),
        keys: all - keys.count_left(),
        shown: screen.count(),
        generations: exec.store().parts().rows() as u64,
    })
}
