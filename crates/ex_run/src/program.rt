// A run over a store, from image to image.
// A call of run is alone in a function generic over the application (run_application) that hands on one record
// (Runs): at the application itself each clause is stated unfolded.
ghost use Rattle.std.specs.Prelude.{◌≡◌};
ghost use Rattle.cm_run.specs.Trace.{is_ended};
ghost use Rattle.ex_store.specs.State.{State};
ghost use Rattle.ex_system.specs.WordViews.{form_view};
ghost use Rattle.ex_system.specs.Disk.{disk_of};
ghost use Rattle.ex_run.specs.Course.{Comes, Course};
ghost use Rattle.ex_run.specs.Over.{over};
ghost use Rattle.ex_run.specs.Runs.{Runs};
ghost use Rattle.ex_run.specs.Scene.{scene, telling};

use crate::closing::close;
use cm_blocks::Steps;
use cm_io::{Clock, Host, NoMemory, Sink, Source, Status};
use cm_run::{Application, Mode, Stop, run};
use ex_store::Store;
use ex_system::{Form, refuse, start};
use std::alloc::Global;
use std::sync::ledger::Ledger;

/// The most keys that a run takes.
pub const KEY_LIMIT: u64 = 16_777_216;

/// How an application is run over a store: how a run of it begins, and what store it has, of which the image is written
/// at the end. It is implemented by a unit type of the program's own crate, since the application and this trait may
/// both are in others; no value of that type is made.
pub trait Program<A: Application> {
    ghost use Rattle.std.specs.Prelude.{◌≡◌, IfOk};
    ghost use Rattle.cm_run.specs.Keeping.{IsLineKeeping};
    ghost use Rattle.ex_store.specs.State.{State};

    /// The state in which a run over a store begins.
    ghost begins: { State → A };

    /// The state of its store.
    ghost store_of: { A → State };

    /// A run over a store begins. The memory for its grammar, and for what it does, is `alloc`.
    fn begin(alloc: Global, store: Store) -> Result<A, NoMemory>
        ensures { IfOk result (λ app. app ≡ begins store.state) };

    /// Its store.
    fn store(app: &A) -> &Store
        ensures { result.now.state ≡ store_of app.now };

    /// It leaves the screen at the start of a row wherever a line begins.
    ghost keeps_lines: { IsLineKeeping A.means };
}

// Whether an application has ended the run.
fn has_ended<A: Application>(app: &A) -> bool
    ensures { result ≡ is_ended (A.means.mode_of app.now) }
{
    match app.mode() {
        Mode::Ended => true,
        Mode::Line { .. } => false,
        Mode::Raw => false,
    }
}

// Runs an application over the keys to the end. What is known of the run is one fact, so that a caller that names the
// application has one clause of it.
fn run_application<A: Application, K: Source, S: Sink, W: Sink, C: Clock, L: Ledger>(
    logging: bool,
    app: &mut A,
    keys: &mut K,
    screen: &mut S,
    log: &mut W,
    clock: &mut C,
    steps: &mut Steps<L>,
) -> Result<(), Stop>
    ensures { Runs A.means logging (telling K.tells C.tells) app.old app.new
        (scene S.Sink screen.old W.Sink log.old K.Source keys.old C.Clock clock.old steps.old)
        (scene S.Sink screen.new W.Sink log.new K.Source keys.new C.Clock clock.new steps.new)
        result }
{
    run(KEY_LIMIT, logging, app, keys, screen, log, clock, steps)
}

// Runs over the keys to the end, writes the image, and shows the message of the status.
fn run_store<
    A: Application,
    P: Program<A>,
    H: Host,
    K: Source,
    S: Sink,
    W: Sink,
    C: Clock,
    L: Ledger,
>(
    form: &Form<'_>,
    app: &mut A,
    host: &mut H,
    keys: &mut K,
    screen: &mut S,
    log: &mut W,
    clock: &mut C,
    steps: &mut Steps<L>,
) -> Status
    ensures { (start : State) → app.old ≡ P.begins start
        → Comes (telling K.tells C.tells) (over A.means P.begins P.store_of) (form_view form.now) start
        (scene S.Sink screen.old W.Sink log.old K.Source keys.old C.Clock clock.old steps.old)
        (scene S.Sink screen.new W.Sink log.new K.Source keys.new C.Clock clock.new steps.new)
        (disk_of H.Host host.old) (disk_of H.Host host.new) result }
{
    let stop = run_application(form.logs, app, keys, screen, log, clock, steps);
    close(stop, has_ended(app), P::store(app), form.out, host, screen)
}

/// Runs a program as a form asks: from a new store, or that of which the file IN of `host` has the image, over `keys`
/// to the end; the image of its own store is written to the file OUT. A key edits the line on `screen`; a line that is
/// confirmed acts, at a moment of `clock`. `steps` counts the trials.
///
/// Before the first prompt the message of a status is shown alone, IN is loaded once, if there is one, and OUT is not
/// created. Past it the trace of the run stands, or a cut of it, and then how it was closed; OUT is created once, is
/// closed, and holds the image of the state that the run left. No other file changes.
pub fn run_program<
    A: Application + Drop,
    P: Program<A>,
    H: Host,
    K: Source,
    S: Sink,
    W: Sink,
    C: Clock,
    L: Ledger,
>(
    alloc: Global,
    form: &Form<'_>,
    host: &mut H,
    keys: &mut K,
    screen: &mut S,
    log: &mut W,
    clock: &mut C,
    steps: &mut Steps<L>,
) -> Status
    ensures { Course (telling K.tells C.tells) (over A.means P.begins P.store_of) (form_view form.now)
        (scene S.Sink screen.old W.Sink log.old K.Source keys.old C.Clock clock.old steps.old)
        (scene S.Sink screen.new W.Sink log.new K.Source keys.new C.Clock clock.new steps.new)
        (disk_of H.Host host.old) (disk_of H.Host host.new) result }
{
    let store = match start(alloc, form.input, host) {
        Ok(store) => store,
        Err(status) => return refuse(status, screen),
    };
    let Ok(mut app) = P::begin(alloc, store) else {
        return refuse(Status::NoMemory, screen);
    };
    run_store::<A, P, H, K, S, W, C, L>(form, &mut app, host, keys, screen, log, clock, steps)
}
