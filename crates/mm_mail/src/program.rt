// The program over what is outside of it.
ghost use Rattle.std.specs.Prelude.{◌≡◌, ◌⊎◌, ◌≤◌, ◌<◌, ◌↔◌, ◌+◌, ℕ, false, List, ◌++◌, length, None, Some, IsTrue};
ghost use Rattle.cm_io.specs.Contents.{add};
ghost use Rattle.cm_run.specs.Cause.{counts};
ghost use Rattle.cm_run.specs.Event.{trials_of};
ghost use Rattle.cm_run.specs.Keeping.{KeepsLine};
ghost use Rattle.tt_screen.specs.Grid.{feed};
ghost use Rattle.tt_screen.specs.Holds.{Holds};
ghost use Rattle.ex_image.specs.Image.{image_text};
ghost use Rattle.ex_store.specs.State.{State};
ghost use Rattle.ex_system.specs.WordViews.{form_view};
ghost use Rattle.ex_system.specs.Disk.{disk_of};
ghost use Rattle.ex_system.specs.Form.{Form};
ghost use Rattle.ex_system.specs.Quiet.{IsQuiet};
ghost use Rattle.ex_system.specs.Saving.{HostCause};
ghost use Rattle.ex_run.specs.Cause.{StatusCause};
ghost use Rattle.ex_run.specs.Course.{Asks, Course, IsHalt, StartCause};
ghost use Rattle.ex_run.specs.Scene.{telling, unlogged_scene};
ghost use Rattle.ex_run.specs.declared.program.TheConstants.{KEY_LIMIT};
ghost use Rattle.mm_mail.specs.Form.{form_of};
ghost use Rattle.mm_mail.specs.MailRun.{Stands, mail_left, mail_trace, run_shown};
ghost use Rattle.mm_mail.specs.MailState.{mail_start};
ghost use Rattle.mm_mail.specs.Semantics.{mail_over, mail_semantics};

use crate::mail::Mail;
use crate::words::{read_form, usage};
use cm_blocks::Steps;
use cm_io::{Clock, Host, NoMemory, Sink, Source};
use cm_run::Own;
use ex_run::{NoLog, Program, run_program};
use ex_store::Store;
use ex_system::{Status, Words, refuse_usage};
use std::alloc::Global;
use std::sync::ledger::Ledger;

/// Mail as a program over a store.
pub struct MailProgram;

impl Program<Mail> for MailProgram {
    ghost use Rattle.mm_mail.specs.MailState.{mail_start};
    ghost use Rattle.mm_mail.specs.LineKeeping.{mail_keeps_lines};

    ghost begins = { mail_start };

    ghost store_of = { λ mail. mail.state };

    fn begin(alloc: Global, store: Store) -> Result<Mail, NoMemory> {
        Ok(Mail::new(alloc, Own::new(alloc)?, store))
    }

    fn store(app: &Mail) -> &Store {
        app.store()
    }

    ghost keeps_lines = { mail_keeps_lines };
}

// Runs mail over the keys, as a form asks.
fn run_form<H: Host, K: Source, S: Sink, C: Clock, L: Ledger>(
    alloc: Global,
    form: &ex_system::Form<'_>,
    host: &mut H,
    keys: &mut K,
    screen: &mut S,
    clock: &mut C,
    steps: &mut Steps<L>,
) -> Status
    ensures { Course (telling K.tells C.tells) mail_over (form_view form.now)
        (unlogged_scene S.Sink screen.old K.Source keys.old C.Clock clock.old steps.old)
        (unlogged_scene S.Sink screen.new K.Source keys.new C.Clock clock.new steps.new)
        (disk_of H.Host host.old) (disk_of H.Host host.new) result }
{
    run_program::<Mail, MailProgram, H, K, S, NoLog, C, L>(
        alloc, form, host, keys, screen, &mut NoLog, clock, steps,
    )
}

/// The program `mm20`: mail over the files of a system, in the mailbox of its connected directory. It takes the keys in
/// turn, shows what they do, does what confirmed lines command, and writes the image at the end.
///
/// `words` are `IN OUT`. The run begins from the image in the file IN of `host`, and its own is written to the file
/// OUT. A key edits the line on `screen`; a line that is confirmed acts, at a moment of `clock`; a message that is
/// typed in is sent at control-Z. There is no log. The status is Usage exactly where the words are others, before
/// anything else is touched, and NoMemory where memory runs out, before the first prompt, at a line of SEND or where
/// its message is sent. The others are said of below, clause by clause.
///
/// `steps` counts the trials: a key costs those of its line after the fields that the unchanged front of the line
/// decides.
#[tactic(auto, using(crate::proofs::KnownRuns::known_run))]
pub fn mm20<H: Host, K: Source, S: Sink, C: Clock, L: Ledger>(
    alloc: Global,
    words: &Words,
    host: &mut H,
    keys: &mut K,
    screen: &mut S,
    clock: &mut C,
    steps: &mut Steps<L>,
) -> Status
    // When each status may come, by what failed outside ..
    ensures host_cause { HostCause (H.faults host.old) (H.faults host.new) result }
    ensures cause { StatusCause (counts (S.faults screen.old) 0 (K.faults keys.old))
        (counts (S.faults screen.new) 0 (K.faults keys.new)) result }
    // .. by the words ..
    ensures usage { (result ≡ Status.Usage) ↔ (form_of words.now ≡ None) }
    // .. and by the file IN: NoImage exactly where there is none, ImageTooLarge exactly where it has more bytes than
    // any image, BadImage exactly where its bytes are no image, with the place and the kind of the first wrong record.
    ensures start { StartCause (disk_of H.Host host.old) (form_of words.now) result }

    // Where the run is Done, the screen was given what the run over all keys shows, from the state whose image the file
    // IN has ..
    ensures done_shown { IsTrue K.tells → IsTrue C.tells → result ≡ Status.Done
        → (form : Form) → (start : State) → Asks (form_of words.now) (disk_of H.Host host.old) form start
        → S.contents screen.new ≡ add (S.contents screen.old) (run_shown start (C.left clock.old) (K.left keys.old)) }
    // .. the counter has risen by what the trials of all keys cost ..
    ensures done_counted { IsTrue K.tells → IsTrue C.tells → result ≡ Status.Done
        → (form : Form) → (start : State) → Asks (form_of words.now) (disk_of H.Host host.old) form start
        → steps.new ≡ steps.old + trials_of (mail_trace start (C.left clock.old) (K.left keys.old)) }
    // .. and OUT holds the image of the state that the keys leave.
    ensures done_saved { IsTrue K.tells → IsTrue C.tells → IsTrue H.tells → result ≡ Status.Done
        → (form : Form) → (start : State) → Asks (form_of words.now) (disk_of H.Host host.old) form start
        → H.files host.new form.out
        ≡ Some (image_text (mail_left start (C.left clock.old) (K.left keys.old)).state) }
    // Whatever the status, the counter has risen by no more than the trials of all keys cost ..
    ensures most { IsTrue K.tells → IsTrue C.tells → (form : Form) → (start : State)
        → Asks (form_of words.now) (disk_of H.Host host.old) form start
        → steps.new ≤ steps.old + trials_of (mail_trace start (C.left clock.old) (K.left keys.old)) }
    // .. and at ReadFault and KeyLimit by exactly what those of the keys that were taken cost ..
    ensures counted { IsTrue K.tells → IsTrue C.tells → IsHalt result → (form : Form) → (start : State)
        → Asks (form_of words.now) (disk_of H.Host host.old) form start
        → (taken : List ℕ) → taken ++ K.left keys.new ≡ K.left keys.old
        → steps.new ≡ steps.old + trials_of (mail_trace start (C.left clock.old) taken) }
    // .. which come only where QUIT has not acted.
    ensures halted { IsTrue K.tells → IsTrue C.tells → IsHalt result → (form : Form) → (start : State)
        → Asks (form_of words.now) (disk_of H.Host host.old) form start
        → (taken : List ℕ) → taken ++ K.left keys.new ≡ K.left keys.old
        → (mail_left start (C.left clock.old) taken).ended ≡ false }

    // After each beginning of the keys taken the screen shows the prompt and the line as they then are, where the next
    // key is for a line: all that the run over them shows leaves both on any screen whose last row was blank.
    ensures on_screen { IsTrue K.tells → IsTrue C.tells → (form : Form) → (start : State)
        → Asks (form_of words.now) (disk_of H.Host host.old) form start
        → (taken rest : List ℕ) → (taken ++ rest) ++ K.left keys.new ≡ K.left keys.old
        → KeepsLine feed Holds mail_semantics (mail_start start) (C.left clock.old) taken }

    // What stands, whatever the status. Before the first prompt the message alone is shown, IN is loaded once, and OUT
    // is not created. Past it the trace of the run stands, or a cut of it, and then how it was closed; OUT is created
    // once, is closed, and holds the image of the state that the run left. No other file changes.
    ensures stands { Stands (telling K.tells C.tells) (form_of words.now)
        (unlogged_scene S.Sink screen.old K.Source keys.old C.Clock clock.old steps.old)
        (unlogged_scene S.Sink screen.new K.Source keys.new C.Clock clock.new steps.new)
        (disk_of H.Host host.old) (disk_of H.Host host.new) result }

    // With words of a form, an image in IN, fewer keys than a run takes, and nothing outside that fails, the run is
    // Done, or memory runs out.
    ensures complete { IsTrue K.tells → (form : Form) → (start : State)
        → Asks (form_of words.now) (disk_of H.Host host.old) form start
        → length (K.left keys.old) < KEY_LIMIT
        → IsQuiet (S.faults screen.old) (S.faults screen.new) → IsQuiet (K.faults keys.old) (K.faults keys.new)
        → IsQuiet (H.faults host.old) (H.faults host.new)
        → (result ≡ Status.Done) ⊎ (result ≡ Status.NoMemory) }
    // With as many keys as a run takes, in which QUIT does not act, it is KeyLimit, or memory runs out. QUIT is not to
    // act at the moments that the clock tells, or where it tells none, whatever they are.
    ensures limit { IsTrue K.tells → (form : Form) → (start : State)
        → Asks (form_of words.now) (disk_of H.Host host.old) form start
        → (taken rest : List ℕ) → taken ++ rest ≡ K.left keys.old → length taken ≡ KEY_LIMIT
        → ((moments : List ℕ) → (IsTrue C.tells → moments ≡ C.left clock.old)
        → (mail_left start moments taken).ended ≡ false)
        → IsQuiet (S.faults screen.old) (S.faults screen.new) → IsQuiet (K.faults keys.old) (K.faults keys.new)
        → IsQuiet (H.faults host.old) (H.faults host.new)
        → (result ≡ Status.KeyLimit) ⊎ (result ≡ Status.NoMemory) }
{
    let Some(form) = read_form(words) else {
        return refuse_usage(usage(), screen);
    };
    run_form(alloc, &form, host, keys, screen, clock, steps)
}
