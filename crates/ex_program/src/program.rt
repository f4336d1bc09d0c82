// The program over what is outside of it.
ghost use Rattle.std.specs.Prelude.{◌≡◌, ◌≢◌, ◌⊎◌, ◌≤◌, ◌<◌, ◌↔◌, ◌+◌, ℕ, false, List, ◌++◌, length, None, Some, IsTrue};
ghost use Rattle.cm_io.specs.Contents.{add};
ghost use Rattle.cm_run.specs.Cause.{counts};
ghost use Rattle.cm_run.specs.Event.{log_bytes, trials_of};
ghost use Rattle.cm_run.specs.Keeping.{KeepsLine};
ghost use Rattle.tt_screen.specs.Grid.{feed};
ghost use Rattle.tt_screen.specs.Holds.{Holds};
ghost use Rattle.ex_image.specs.Image.{image_text};
ghost use Rattle.ex_store.specs.State.{State};
ghost use Rattle.ex_take.specs.Exec.{exec_semantics};
ghost use Rattle.ex_take.specs.ExecState.{exec_start};
ghost use Rattle.ex_system.specs.WordViews.{form_view};
ghost use Rattle.ex_system.specs.Disk.{disk_of};
ghost use Rattle.ex_system.specs.Form.{Form};
ghost use Rattle.ex_system.specs.Quiet.{IsQuiet};
ghost use Rattle.ex_system.specs.Saving.{HostCause};
ghost use Rattle.ex_run.specs.Cause.{StatusCause};
ghost use Rattle.ex_run.specs.Course.{Asks, Course, IsHalt, StartCause, logs};
ghost use Rattle.ex_run.specs.Scene.{scene, telling};
ghost use Rattle.ex_run.specs.declared.program.TheConstants.{KEY_LIMIT};
ghost use Rattle.ex_program.specs.declared.progress.TheConstants.{GENERATED_LINES};
ghost use Rattle.ex_program.specs.ExecRun.{exec_left, exec_over, exec_trace, run_shown};
ghost use Rattle.ex_program.specs.Form.{form_of, lines_of};
ghost use Rattle.ex_program.specs.Generates.{Rises, Shows, Sums};
ghost use Rattle.ex_program.specs.RunEnd.{Stands};
ghost use Rattle.ex_program.specs.Summary.{generated_trace, summary_text};

use crate::generated_run::summarize;
use crate::summary::Summary;
use crate::words::{read_form, read_lines, usage};
use cm_blocks::Steps;
use cm_io::{Clock, Host, NoMemory, Put, Sink, Source, Writer};
use cm_run::Own;
use ex_run::{Program, run_program};
use ex_store::Store;
use ex_system::{Status, Words, refuse, refuse_usage};
use ex_take::Exec;
use std::alloc::Global;
use std::sync::ledger::Ledger;

/// The EXEC as a program over a store.
pub struct ExecProgram;

impl Program<Exec> for ExecProgram {
    ghost use Rattle.ex_take.specs.ExecState.{exec_start};
    ghost use Rattle.ex_take.proofs.KeptLines.{exec_keeps_lines};

    ghost begins = { exec_start };

    ghost store_of = { λ at. at.interpreter.state };

    fn begin(alloc: Global, store: Store) -> Result<Exec, NoMemory> {
        Ok(Exec::new(alloc, Own::new(alloc)?, store))
    }

    fn store(app: &Exec) -> &Store {
        app.store()
    }

    ghost keeps_lines = { exec_keeps_lines };
}

// Runs the EXEC over the keys, as a form asks.
fn run_form<H: Host, K: Source, S: Sink, W: Sink, C: Clock, L: Ledger>(
    alloc: Global,
    form: &ex_system::Form<'_>,
    host: &mut H,
    keys: &mut K,
    screen: &mut S,
    log: &mut W,
    clock: &mut C,
    steps: &mut Steps<L>,
) -> Status
    ensures { Course (telling K.tells C.tells) exec_over (form_view form.now)
        (scene S.Sink screen.old W.Sink log.old K.Source keys.old C.Clock clock.old steps.old)
        (scene S.Sink screen.new W.Sink log.new K.Source keys.new C.Clock clock.new steps.new)
        (disk_of H.Host host.old) (disk_of H.Host host.new) result }
{
    run_program::<Exec, ExecProgram, H, K, S, W, C, L>(
        alloc, form, host, keys, screen, log, clock, steps,
    )
}

// Shows a summary.
fn show_summary<S: Sink>(summary: &Summary, screen: &mut S) -> Status
    ensures { Shows (summary_text summary.now) (S.contents screen.old) (S.contents screen.new)
        (S.faults screen.old) (S.faults screen.new) result }
{
    let mut out = Writer::new(screen);
    summary.put(&mut out);
    match out.finish() {
        Put::Done => Status::Done,
        Put::Failed => Status::WriteFault,
    }
}

// Runs over the keys of so many generated lines, and shows the summary of that run.
fn generate<S: Sink, L: Ledger>(
    alloc: Global,
    lines: u32,
    screen: &mut S,
    steps: &mut Steps<L>,
) -> Status
    requires lines { lines ≤ GENERATED_LINES }
    ensures screen { Sums lines (S.contents screen.old) (S.contents screen.new)
        (S.faults screen.old) (S.faults screen.new) result }
    ensures counter { Rises lines steps.old steps.new result }
{
    match summarize(alloc, lines, steps) {
        Ok(summary) => show_summary(&summary, screen),
        Err(NoMemory) => refuse(Status::NoMemory, screen),
    }
}

/// The program `exec20`: takes the keys in turn, shows what they do, logs the parse that is held after
/// each where the words ask for it, does what confirmed lines command, and writes the image at the end.
///
/// `words` are `IN OUT`, or `-n OUT` for a run that begins anew, with `-w` before them for a log. The run begins from
/// the image in the file IN of `host`, and its own is written to the file OUT. A key edits the line on `screen`; a line
/// that is confirmed acts, at a moment of `clock`. With `-g N` the program runs over the keys of N generated lines, in
/// memory alone, and shows the summary of that run. The status is Usage exactly where the words are none of these,
/// before anything else is touched, and NoMemory where memory runs out, before the first prompt or at a line that
/// needs it. The others are said of below, clause by clause.
///
/// `steps` counts the trials: a key costs those of its line after the fields that the unchanged front of the line
/// decides.
#[tactic(auto, using(crate::proofs::KnownRuns::known_run))]
pub fn exec20<H: Host, K: Source, S: Sink, W: Sink, C: Clock, L: Ledger>(
    alloc: Global,
    words: &Words,
    host: &mut H,
    keys: &mut K,
    screen: &mut S,
    log: &mut W,
    clock: &mut C,
    steps: &mut Steps<L>,
) -> Status
    // When each status may come, by what failed outside ..
    ensures host_cause { HostCause (H.faults host.old) (H.faults host.new) result }
    // [run-cause]
    ensures cause { StatusCause (counts (S.faults screen.old) (W.faults log.old) (K.faults keys.old))
        (counts (S.faults screen.new) (W.faults log.new) (K.faults keys.new)) result }
    // [usage] .. by the words ..
    ensures usage { (result ≡ Status.Usage) ↔ ((form_of words.now ≡ None) × (lines_of words.now ≡ None)) }
    // .. and by the file that the run is to begin from: NoImage exactly where there is none, ImageTooLarge exactly
    // where it has more bytes than any image, BadImage exactly where its bytes are no image, with the place and the
    // kind of the first wrong record.
    ensures start { StartCause (disk_of H.Host host.old) (form_of words.now) result }

    // Where the run is Done, the screen was given what the run over all keys shows, from the state that it begins in,
    // the first one or that whose image the file IN has ..
    ensures done_shown { IsTrue K.tells → IsTrue C.tells → result ≡ Status.Done
        → (form : Form) → (start : State) → Asks (form_of words.now) (disk_of H.Host host.old) form start
        → S.contents screen.new ≡ add (S.contents screen.old)
        (run_shown form.logs start (C.left clock.old) (K.left keys.old)) }
    // .. the log what it logs ..
    ensures done_logged { IsTrue K.tells → IsTrue C.tells → result ≡ Status.Done
        → (form : Form) → (start : State) → Asks (form_of words.now) (disk_of H.Host host.old) form start
        → W.contents log.new ≡ add (W.contents log.old)
        (log_bytes (exec_trace form.logs start (C.left clock.old) (K.left keys.old))) }
    // .. the counter has risen by what the trials of all keys cost, with a log or without ..
    ensures done_counted { IsTrue K.tells → IsTrue C.tells → result ≡ Status.Done
        → (form : Form) → (start : State) → Asks (form_of words.now) (disk_of H.Host host.old) form start
        → steps.new ≡ steps.old + trials_of (exec_trace form.logs start (C.left clock.old) (K.left keys.old)) }
    // .. and OUT holds the image of the state that the keys leave.
    ensures done_saved { IsTrue K.tells → IsTrue C.tells → IsTrue H.tells → result ≡ Status.Done
        → (form : Form) → (start : State) → Asks (form_of words.now) (disk_of H.Host host.old) form start
        → H.files host.new form.out
        ≡ Some (image_text (exec_left form.logs start (C.left clock.old) (K.left keys.old)).interpreter.state) }
    // Whatever the status, the counter has risen by no more than the trials of all keys cost ..
    ensures most { IsTrue K.tells → IsTrue C.tells → (form : Form) → (start : State)
        → Asks (form_of words.now) (disk_of H.Host host.old) form start
        → steps.new ≤ steps.old + trials_of (exec_trace form.logs start (C.left clock.old) (K.left keys.old)) }
    // .. and at ReadFault and KeyLimit by exactly what those of the keys that were taken cost ..
    ensures counted { IsTrue K.tells → IsTrue C.tells → IsHalt result → (form : Form) → (start : State)
        → Asks (form_of words.now) (disk_of H.Host host.old) form start
        → (taken : List ℕ) → taken ++ K.left keys.new ≡ K.left keys.old
        → steps.new ≡ steps.old + trials_of (exec_trace form.logs start (C.left clock.old) taken) }
    // .. which come only where LOGOUT has not acted.
    ensures halted { IsTrue K.tells → IsTrue C.tells → IsHalt result → (form : Form) → (start : State)
        → Asks (form_of words.now) (disk_of H.Host host.old) form start
        → (taken : List ℕ) → taken ++ K.left keys.new ≡ K.left keys.old
        → (exec_left form.logs start (C.left clock.old) taken).interpreter.ended ≡ false }
    // With `-g N` the counter has risen by what the trials of all keys of so many lines cost, but where memory runs out
    // by no more.
    ensures generated_counted { (lines : ℕ) → form_of words.now ≡ None → lines_of words.now ≡ Some lines
        → result ≢ Status.NoMemory → steps.new ≡ steps.old + trials_of (generated_trace lines) }
    ensures generated_most { (lines : ℕ) → form_of words.now ≡ None → lines_of words.now ≡ Some lines
        → steps.new ≤ steps.old + trials_of (generated_trace lines) }

    // After each beginning of the keys taken the screen shows the prompt and the line as they then are, where the next
    // key is for a line: all that the run over them shows leaves both on any screen whose last row was blank.
    ensures on_screen { IsTrue K.tells → IsTrue C.tells → (form : Form) → (start : State)
        → Asks (form_of words.now) (disk_of H.Host host.old) form start
        → (taken rest : List ℕ) → (taken ++ rest) ++ K.left keys.new ≡ K.left keys.old
        → KeepsLine feed Holds exec_semantics (exec_start start) (C.left clock.old) taken }

    // What stands, whatever the status. With `-g N` nothing but the screen and the counter is touched: the summary of
    // the run over the keys of so many lines is shown, and the counter has risen by what they cost; or memory is
    // wanting, and it has risen by what was tried before.
    // Before the first prompt of a run over `keys` the message alone is shown, IN is loaded once, if there is one, and
    // OUT is not created. Past it the trace of the run stands, or a cut of it, and then how it was closed;
    // OUT is created once, is closed, and holds the image of the state that the run left. No other file changes.
    ensures stands { Stands (telling K.tells C.tells) (form_of words.now) (lines_of words.now)
        (scene S.Sink screen.old W.Sink log.old K.Source keys.old C.Clock clock.old steps.old)
        (scene S.Sink screen.new W.Sink log.new K.Source keys.new C.Clock clock.new steps.new)
        (disk_of H.Host host.old) (disk_of H.Host host.new) result }
    // Without a log nothing is asked of it.
    ensures unlogged { logs (form_of words.now) ≡ false
        → (W.contents log.new ≡ W.contents log.old) × (W.faults log.new ≡ W.faults log.old) }

    // With words of a form, an image where they name one, fewer keys than a run takes, and nothing outside that fails,
    // the run is Done, or memory runs out.
    ensures complete { IsTrue K.tells → (form : Form) → (start : State)
        → Asks (form_of words.now) (disk_of H.Host host.old) form start
        → length (K.left keys.old) < KEY_LIMIT
        → IsQuiet (S.faults screen.old) (S.faults screen.new) → IsQuiet (W.faults log.old) (W.faults log.new)
        → IsQuiet (K.faults keys.old) (K.faults keys.new) → IsQuiet (H.faults host.old) (H.faults host.new)
        → (result ≡ Status.Done) ⊎ (result ≡ Status.NoMemory) }
    // With as many keys as a run takes, in which LOGOUT does not act, it is KeyLimit, or memory runs out. LOGOUT is not
    // to act at the moments that the clock tells, or where it tells none, whatever they are.
    ensures limit { IsTrue K.tells → (form : Form) → (start : State)
        → Asks (form_of words.now) (disk_of H.Host host.old) form start
        → (taken rest : List ℕ) → taken ++ rest ≡ K.left keys.old → length taken ≡ KEY_LIMIT
        → ((moments : List ℕ) → (IsTrue C.tells → moments ≡ C.left clock.old)
        → (exec_left form.logs start moments taken).interpreter.ended ≡ false)
        → IsQuiet (S.faults screen.old) (S.faults screen.new) → IsQuiet (W.faults log.old) (W.faults log.new)
        → IsQuiet (K.faults keys.old) (K.faults keys.new) → IsQuiet (H.faults host.old) (H.faults host.new)
        → (result ≡ Status.KeyLimit) ⊎ (result ≡ Status.NoMemory) }
{
    let Some(form) = read_form(words) else {
        let Some(lines) = read_lines(words) else {
            return refuse_usage(usage(), screen);
        };
        return generate(alloc, lines, screen, steps);
    };
    run_form(alloc, &form, host, keys, screen, log, clock, steps)
}
