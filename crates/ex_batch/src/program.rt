// The program over what is outside of it.
ghost use Rattle.std.specs.Prelude.{◌≡◌, ◌⊎◌, ◌≤◌, ◌<◌, ◌↔◌, ◌+◌, None, Some, IsTrue};
ghost use Rattle.std.specs.Option.{option_map};
ghost use Rattle.cm_run.specs.Event.{screen_bytes, state_after, trials_of};
ghost use Rattle.ex_image.specs.Image.{image_text};
ghost use Rattle.ex_store.specs.State.{State};
ghost use Rattle.ex_take.specs.ExecState.{exec_start};
ghost use Rattle.ex_system.specs.WordViews.{form_view};
ghost use Rattle.ex_system.specs.Disk.{disk_of};
ghost use Rattle.ex_system.specs.Quiet.{IsQuiet};
ghost use Rattle.ex_system.specs.Saving.{HostCause};
ghost use Rattle.ex_system.specs.Trying.{Tried};
ghost use Rattle.ex_batch.specs.Request.{job_view};
ghost use Rattle.ex_batch.specs.Moments.{OfMoments};
ghost use Rattle.ex_batch.specs.RunEnd.{Asks, Course, IsBatch, IsWhole, JobForm as Asked, Ran, ScreenCause, Stands, StartCause, end_status, end_text, form_of, scene, usage, with_file};
ghost use Rattle.ex_batch.specs.Whole.{whole_of};

use crate::batch::run_batch;
use crate::control_file::named_file;
use crate::ending::close;
use crate::file::ControlFile;
use crate::job::Job;
use crate::step::Ended;
use cm_blocks::Steps;
use cm_io::{Clock, Host, Sink, Status, Words};
use cm_run::{Own, Stop};
use ex_commands::file_bytes;
use ex_system::{Form, as_triple, in_out, refuse, refuse_usage, start};
use std::alloc::Global;
use std::sync::ledger::Ledger;

/// What the words of a run of a control file ask for.
#[derive(Clone, Copy)]
pub struct JobForm<'a> {
    /// The file that the run begins from, and the one that the image is written to.
    pub form: Form<'a>,
    /// What names the control file.
    pub file: &'a str,
}

// A form with what names a file, where that is not empty.
fn with_file<'a>(file: &'a str, form: Option<Form<'a>>) -> Option<JobForm<'a>>
    ensures { option_map job_view result ≡ with_file file.now (option_map form_view form.entry) }
{
    match form {
        Some(form) => {
            if file.is_empty() {
                return None;
            }
            Some(JobForm { form, file })
        }
        None => None,
    }
}

// What the words ask for.
#[tactic(auto, unfolding(crate::specs::RunEnd::form_of))]
fn form_of(words: &Words) -> Option<JobForm<'_>>
    ensures { option_map job_view result ≡ form_of words.now }
{
    match as_triple(words) {
        Some(triple) => with_file(triple.third, in_out(false, triple.first, triple.second)),
        None => None,
    }
}

// What is shown where the words ask for nothing that the program does.
#[tactic(auto, unfolding(crate::specs::RunEnd::usage))]
fn usage() -> &'static str
    ensures { result.now ≡ usage }
{
    "Usage: batch20 IN OUT FILE"
}

// Runs the control file that a word names.
fn run_file<S: Sink, C: Clock, L: Ledger>(
    alloc: Global,
    file: &[u8],
    job: &mut Job,
    screen: &mut S,
    clock: &mut C,
    steps: &mut Steps<L>,
) -> Result<Ended, Stop>
    ensures { (start : State) → job.old ≡ exec_start start → Ran (IsTrue C.tells) file.now start job.new result
        (scene S.Sink screen.old C.Clock clock.old steps.old) (scene S.Sink screen.new C.Clock clock.new steps.new) }
{
    let held = job.store();
    let place = match named_file(file, held) {
        Ok(place) => place,
        Err(code) => return Ok(Ended::Stopped(code)),
    };
    let Ok(file) = ControlFile::read(alloc, file_bytes(held, &place)) else {
        return Err(Stop::Memory);
    };
    run_batch(&file, job, screen, clock, steps)
}

// Runs a control file as a form asks.
fn run_form<H: Host, S: Sink, C: Clock, L: Ledger>(
    alloc: Global,
    asked: &JobForm<'_>,
    host: &mut H,
    screen: &mut S,
    clock: &mut C,
    steps: &mut Steps<L>,
) -> Status
    ensures { Course (IsTrue C.tells) (job_view asked.now)
        (scene S.Sink screen.old C.Clock clock.old steps.old) (scene S.Sink screen.new C.Clock clock.new steps.new)
        (disk_of H.Host host.old) (disk_of H.Host host.new) result }
{
    let store = match start(alloc, asked.form.input, host) {
        Ok(store) => store,
        Err(status) => return refuse(status, screen),
    };
    let Ok(grammar) = Own::new(alloc) else {
        return refuse(Status::NoMemory, screen);
    };
    let mut job = Job::new(alloc, grammar, store);
    let how = run_file(alloc, asked.file.as_bytes(), &mut job, screen, clock, steps);
    let left = job.store();
    close(how, left, asked.form.out, host, screen)
}

/// The program `batch20`: runs a control file over a store, without keys, and writes the image at the end.
///
/// `words` are `IN OUT FILE`. The run begins from the image in the file IN of `host`. FILE names a file of that image,
/// as an EXEC command names one that is to be read; its lines are shown on `screen` and done one after the other, each
/// line of the EXEC's at a moment of `clock`, and the image is then written to the file OUT. After the save stands why
/// the run was stopped, or the message of the status.
///
/// `steps` counts the trials.
#[tactic(auto, using(crate::proofs::Clocks::moments_hold))]
pub fn batch20<H: Host, S: Sink, C: Clock, L: Ledger>(
    alloc: Global,
    words: &Words,
    host: &mut H,
    screen: &mut S,
    clock: &mut C,
    steps: &mut Steps<L>,
) -> Status
    // When each status may come, by what failed outside ..
    ensures host_cause { HostCause (H.faults host.old) (H.faults host.new) result }
    ensures cause { ScreenCause (S.faults screen.old) (S.faults screen.new) result }
    ensures batch { IsBatch result }
    // .. by the words ..
    ensures usage { (result ≡ Status.Usage) ↔ (form_of words.now ≡ None) }
    // .. and by the file IN: NoImage exactly where there is none, ImageTooLarge exactly where it has more bytes than
    // any image, BadImage exactly where its bytes are no image, with the place and the kind of the first wrong record.
    ensures start { StartCause (disk_of H.Host host.old) (form_of words.now) result }

    // The clauses from here to `saved`, and `most` and `complete`, speak of moments: those of the clock where it tells,
    // and else some.
    //
    // Done and Stopped come where the whole run ends so, from the state that it begins in, that whose image the file
    // IN has: a run is stopped where FILE is refused, or at a line ..
    ensures whole { IsWhole result → (asked : Asked) → (start : State)
        → Asks (form_of words.now) (disk_of H.Host host.old) asked start
        → OfMoments (IsTrue C.tells) (C.left clock.old) (λ moments.
        result ≡ end_status (whole_of start asked.file moments).end) }
    // .. the screen was given all that the run shows, and after it why it was stopped, or a prefix of that where the
    // screen fails there ..
    ensures shown { IsWhole result → (asked : Asked) → (start : State)
        → Asks (form_of words.now) (disk_of H.Host host.old) asked start
        → OfMoments (IsTrue C.tells) (C.left clock.old) (λ moments.
        Tried (S.contents screen.old) (S.contents screen.new) (S.faults screen.old) (S.faults screen.new)
        (screen_bytes (whole_of start asked.file moments).events) (end_text (whole_of start asked.file moments).end)) }
    // .. the counter has risen by what the trials of all lines cost ..
    ensures counted { IsWhole result → (asked : Asked) → (start : State)
        → Asks (form_of words.now) (disk_of H.Host host.old) asked start
        → OfMoments (IsTrue C.tells) (C.left clock.old) (λ moments.
        steps.new ≡ steps.old + trials_of (whole_of start asked.file moments).events) }
    // .. and OUT holds the image of the state that the lines leave.
    ensures saved { IsTrue H.tells → IsWhole result → (asked : Asked) → (start : State)
        → Asks (form_of words.now) (disk_of H.Host host.old) asked start
        → OfMoments (IsTrue C.tells) (C.left clock.old) (λ moments.
        H.files host.new asked.form.out ≡ Some (image_text (state_after (exec_start start)
        (whole_of start asked.file moments).events).interpreter.state)) }

    // What stands, whatever the status. Before FILE is looked at the message alone is shown, IN is loaded once, and OUT
    // is not created. Past that the trace of the whole run stands, or a cut of it: what was shown, counted and left is
    // exact there. Then OUT is created once, is closed, and holds the image of the state that the run left, and no
    // other file changes; and after that is shown how it went. So memory runs out before any line is shown, or at an
    // act that may want it, where the acts before it have been done, and no other.
    ensures stands { Stands (IsTrue C.tells) (form_of words.now)
        (scene S.Sink screen.old C.Clock clock.old steps.old) (scene S.Sink screen.new C.Clock clock.new steps.new)
        (disk_of H.Host host.old) (disk_of H.Host host.new) result }
    // The counter has risen by no more than the whole run costs.
    ensures most { (asked : Asked) → (start : State)
        → Asks (form_of words.now) (disk_of H.Host host.old) asked start
        → OfMoments (IsTrue C.tells) (C.left clock.old) (λ moments.
        steps.new ≤ steps.old + trials_of (whole_of start asked.file moments).events) }

    // With words of a form, an image in IN, and nothing outside that fails, the status is Stopped where FILE is refused
    // or the run is stopped at a line, and else Done; or memory runs out.
    ensures complete { (asked : Asked) → (start : State)
        → Asks (form_of words.now) (disk_of H.Host host.old) asked start
        → IsQuiet (S.faults screen.old) (S.faults screen.new) → IsQuiet (H.faults host.old) (H.faults host.new)
        → OfMoments (IsTrue C.tells) (C.left clock.old) (λ moments.
        (result ≡ end_status (whole_of start asked.file moments).end) ⊎ (result ≡ Status.NoMemory)) }
{
    let Some(asked) = form_of(words) else {
        return refuse_usage(usage(), screen);
    };
    run_form(alloc, &asked, host, screen, clock, steps)
}
