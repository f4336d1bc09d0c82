// The run over the keys.
ghost use Rattle.std.specs.Prelude.{◌≡◌, ◌≢◌, ◌≤◌, ◌+◌, ◌++◌, List, ℕ, Err, Ok, false, length, IsTrue};
ghost use Rattle.cm_run.specs.Cause.{KeyCount, RunCause, counts};
ghost use Rattle.cm_run.specs.Cut.{Traces};
ghost use Rattle.cm_run.specs.Semantics.{IsSparing, setting_of};
ghost use Rattle.cm_run.specs.Moments.{RunsTo};
ghost use Rattle.cm_run.specs.Observation.{observation};
ghost use Rattle.cm_run.specs.Progress.{MeetSound};
ghost use Rattle.cm_run.specs.Sound.{IsSound};
ghost use Rattle.cm_run.specs.Trace.{is_ended, run_trace, starting};

use crate::key::handle_key;
use crate::line::open_line;
use crate::{Application, Mode, Stop};
use cm_blocks::Steps;
use cm_files::Names;
use cm_hooks::Rules;
use cm_io::{Clock, Got, Sink, Source};
use cm_state::Session;
use std::sync::ledger::Ledger;

/// The most lines of command files that are taken for one typed line.
pub const FILE_LINES: u32 = 10_000;

/// Runs an application: shows the first prompt and takes the keys in turn, until the application has ended, no key is
/// left, as many are taken as the limit says, the outside fails, or memory runs out. Nothing is asked of the outside
/// after a call that failed.
pub fn run<A: Application, K: Source, S: Sink, W: Sink, C: Clock, L: Ledger>(
    limit: u64,
    logging: bool,
    app: &mut A,
    keys: &mut K,
    screen: &mut S,
    log: &mut W,
    clock: &mut C,
    steps: &mut Steps<L>,
) -> Result<(), Stop>
    // [run-trace] [confirmation] What stands is the trace of the run, or a cut of it.
    ensures traces { IsTrue K.tells → IsTrue C.tells → Traces
        (observation (S.contents screen.old) (W.contents log.old) (K.left keys.old) (K.gets keys.old) (C.left clock.old)
        steps.old app.old)
        (observation (S.contents screen.new) (W.contents log.new) (K.left keys.new) (K.gets keys.new) (C.left clock.new)
        steps.new app.new)
        (run_trace A.means logging app.old (C.left clock.old) (K.left keys.old)) result }
    // [run-cause]
    ensures cause { RunCause
        (counts (S.faults screen.old) (W.faults log.old) (K.faults keys.old))
        (counts (S.faults screen.new) (W.faults log.new) (K.faults keys.new)) result }
    // How many gets were asked, also of a source that tells nothing of its keys.
    ensures asked { K.gets keys.new ≤ K.gets keys.old + limit }
    // [key-limit] How many keys were taken.
    ensures count { IsTrue K.tells → KeyCount limit (length (K.left keys.old)) (length (K.left keys.new))
        (is_ended (A.means.mode_of app.new)) result }
    // Where it went to its end, the keys that were taken lead to the state that is left, at the moments given:
    // also where the clock does not tell them.
    ensures leads { IsTrue K.tells → result ≡ Ok tt
        → RunsTo A.means app.old app.new (K.left keys.old) (K.left keys.new) }
    // Without a log nothing is put on it.
    ensures quiet { logging ≡ false
        → (W.contents log.new ≡ W.contents log.old) × (W.faults log.new ≡ W.faults log.old) }
    // What each key that was taken met is sound.
    ensures sound { IsTrue K.tells → IsTrue C.tells → (first rest : List ℕ)
        → (first ++ rest) ++ K.left keys.new ≡ K.left keys.old
        → MeetSound A.means (starting A.means app.old (C.left clock.old)) first }
    // Where memory may run out for no act, it is not.
    ensures spares { IsSparing A.means → result ≢ Err Stop.Memory }
{
    let mut session = Session::new();
    match open_line(app, &mut session, screen) {
        Ok(()) => {}
        Err(stop) => return Err(stop),
    }
    for _turn in 0..limit {
        if has_ended(app) {
            return Ok(());
        }
        let key = match keys.get() {
            Got::Byte(key) => key,
            Got::End => return Ok(()),
            Got::Failed => return Err(Stop::Keys),
        };
        meets_sound(app);
        match handle_key(logging, key, app, &mut session, screen, log, clock, steps) {
            Ok(()) => {}
            Err(stop) => return Err(stop),
        }
    }
    if has_ended(app) {
        Ok(())
    } else {
        Err(Stop::Limit)
    }
}

// The application has ended the run.
fn has_ended<A: Application>(app: &A) -> bool
    ensures { result ≡ is_ended (A.means.mode_of app.now) }
{
    match app.mode() {
        Mode::Ended => true,
        Mode::Line { .. } => false,
        Mode::Raw => false,
    }
}

// Hands on to a proof that what a key meets is sound. It does nothing.
fn meets_sound<A: Application>(app: &A)
    ensures { IsSound (setting_of A.means app.now) }
{
    app.grammar().has_no_fault();
    app.grammar().has_tables();
    let _ = app.names().directories();
    app.rules().are_lawful();
}
