// What one key of a run does.
ghost use Rattle.std.specs.Prelude.{◌≡◌, ◌≢◌, Err, ◌+◌, ℕ, List, Ok, IsTrue, true, false};
ghost use Rattle.cm_io.specs.Fault.{PutCause};
ghost use Rattle.cm_io.specs.Contents.{Adds, Contents};
ghost use Rattle.cm_io.specs.Writer.{Writes};
ghost use Rattle.cm_line.specs.Keys.{class_at};
ghost use Rattle.cm_blocks.specs.KeptParse.{cost};
ghost use Rattle.cm_blocks.specs.Parse.{IsParse};
ghost use Rattle.cm_blocks.specs.declared.field.Ending.TheVariants as ending;
ghost use Rattle.cm_state.specs.Echo.{echo};
ghost use Rattle.cm_state.specs.Edit.{edited};
ghost use Rattle.cm_state.specs.Log.{log_line};
ghost use Rattle.cm_state.specs.SessionState.{IsReady, line_before, text_of};
ghost use Rattle.cm_state.specs.Turn.{put_of, turn_of};
ghost use Rattle.cm_run.specs.Cause.{KeystrokeCause, ObeyCause, counts};
ghost use Rattle.cm_run.specs.Cut.{Traces};
ghost use Rattle.cm_run.specs.Semantics.{IsLineAt, IsSparing, setting_of};
ghost use Rattle.cm_run.specs.Moments.{Leads};
ghost use Rattle.cm_run.specs.Observation.{observation};
ghost use Rattle.cm_run.specs.Ready.{IsAtLine, IsReadyIn};
ghost use Rattle.cm_run.specs.Trace.{key_trace, keystroke_trace, line_keystroke, moment_at, moments_later, outcome_trace, raw_keystroke, raw_log, raw_mark, run_state, step, step_by, step_of, takes_moment, turn_outcome};

use crate::line::{confirm_line, open_line};
use crate::{Application, Mode, Stop};
use cm_blocks::Steps;
use cm_io::{Clock, Put, Sink, Writer};
use cm_state::{Session, Turn};
use std::sync::ledger::Ledger;

/// Takes one key of a run that has not ended: shows its echo, logs it, and only then does what it asks for.
#[tactic(auto, unfolding(crate::specs::Ready::IsReadyIn))]
pub(crate) fn handle_key<A: Application, S: Sink, W: Sink, C: Clock, L: Ledger>(
    logging: bool,
    key: u8,
    app: &mut A,
    session: &mut Session,
    screen: &mut S,
    log: &mut W,
    clock: &mut C,
    steps: &mut Steps<L>,
) -> Result<(), Stop>
    requires ready { IsReadyIn A.means app.old session.old }
    ensures traces { IsTrue C.tells → (keys : List ℕ) → (gets : ℕ) → Traces
        (observation (S.contents screen.old) (W.contents log.old) keys gets (C.left clock.old) steps.old app.old)
        (observation (S.contents screen.new) (W.contents log.new) keys gets (C.left clock.new) steps.new app.new)
        (key_trace A.means logging (run_state session.old app.old (C.left clock.old)) key) result }
    ensures next { IsTrue C.tells → result ≡ Ok tt → run_state session.new app.new (C.left clock.new)
        ≡ step A.means (run_state session.old app.old (C.left clock.old)) key }
    ensures leads { result ≡ Ok tt → Leads (λ moments. step A.means (run_state session.old app.old moments) key)
        session.new app.new }
    ensures ready { result ≡ Ok tt → IsReadyIn A.means app.new session.new }
    ensures quiet { logging ≡ false
        → (W.contents log.new ≡ W.contents log.old) × (W.faults log.new ≡ W.faults log.old) }
    ensures cause { (keys : ℕ) → KeystrokeCause (counts (S.faults screen.old) (W.faults log.old) keys)
        (counts (S.faults screen.new) (W.faults log.new) keys) result }
    ensures spares { IsSparing A.means → result ≢ Err Stop.Memory }
{
    match app.mode() {
        Mode::Line { .. } => handle_line_key(logging, key, app, session, screen, log, clock, steps),
        Mode::Raw => handle_raw_key(logging, key, app, session, screen, log),
        Mode::Ended => handle_raw_key(logging, key, app, session, screen, log),
    }
}

// Takes a key of a line: edits it, and does what it asks for.
#[tactic(auto, using(crate::proofs::Causes::acts_cause, crate::proofs::Causes::echo_cause, crate::proofs::Causes::log_cause))]
fn handle_line_key<A: Application, S: Sink, W: Sink, C: Clock, L: Ledger>(
    logging: bool,
    key: u8,
    app: &mut A,
    session: &mut Session,
    screen: &mut S,
    log: &mut W,
    clock: &mut C,
    steps: &mut Steps<L>,
) -> Result<(), Stop>
    requires at { IsAtLine A.means app.old session.old }
    ensures traces { IsTrue C.tells → (keys : List ℕ) → (gets : ℕ) → Traces
        (observation (S.contents screen.old) (W.contents log.old) keys gets (C.left clock.old) steps.old app.old)
        (observation (S.contents screen.new) (W.contents log.new) keys gets (C.left clock.new) steps.new app.new)
        (keystroke_trace A.means logging app.old
        (line_keystroke A.means (run_state session.old app.old (C.left clock.old)) key)) result }
    ensures next { IsTrue C.tells → result ≡ Ok tt → run_state session.new app.new (C.left clock.new)
        ≡ step_by A.means (run_state session.old app.old (C.left clock.old))
        (line_keystroke A.means (run_state session.old app.old (C.left clock.old)) key) }
    ensures leads { result ≡ Ok tt → Leads (λ moments. step_by A.means (run_state session.old app.old moments)
        (line_keystroke A.means (run_state session.old app.old moments) key)) session.new app.new }
    ensures ready { result ≡ Ok tt → IsReadyIn A.means app.new session.new }
    ensures quiet { logging ≡ false
        → (W.contents log.new ≡ W.contents log.old) × (W.faults log.new ≡ W.faults log.old) }
    ensures cause { (keys : ℕ) → KeystrokeCause (counts (S.faults screen.old) (W.faults log.old) keys)
        (counts (S.faults screen.new) (W.faults log.new) keys) result }
    ensures spares { IsSparing A.means → result ≢ Err Stop.Memory }
{
    let turn = edit_line(key, app, session, screen, steps);
    if let Turn::Failed = turn {
        return Err(Stop::Screen);
    }
    if let Put::Failed = log_line(logging, key, session, log) {
        return Err(Stop::Log);
    }
    finish_key(turn, app, session, screen, clock, steps)
}

// Edits a line by a key, and shows the echo.
#[tactic(auto, using(crate::proofs::Keys::edited_node))]
fn edit_line<A: Application, S: Sink, L: Ledger>(
    key: u8,
    app: &A,
    session: &mut Session,
    screen: &mut S,
    steps: &mut Steps<L>,
) -> Turn
    requires ready { IsReady (setting_of A.means app.now) session.old }
    ensures edited { session.new ≡ edited (setting_of A.means app.now) session.old key }
    ensures parse { IsParse (setting_of A.means app.now) session.new.node (text_of session.new) session.new.fields
        session.new.ending }
    ensures ready { IsReady (setting_of A.means app.now) session.new }
    ensures node { session.new.node ≡ session.old.node }
    ensures turn { put_of result ≡ Put.Done
        → result ≡ turn_of (class_at (line_before session.old) key) session.new.ending }
    ensures bytes { Adds (S.contents screen.old) (S.contents screen.new)
        (echo (setting_of A.means app.now) session.old key) (put_of result) }
    ensures cause { PutCause (S.faults screen.old) (S.faults screen.new) (put_of result) }
    ensures steps { steps.new ≡ steps.old
        + cost (setting_of A.means app.now) session.old.node (line_before session.old) (text_of session.new) }
{
    session.key(key, app.grammar(), app.names(), app.rules(), screen, steps)
}

// Logs a key of a line, where there is a log.
fn log_line<W: Sink>(logging: bool, key: u8, session: &Session, log: &mut W) -> Put
    ensures bytes { logging ≡ true → Adds (W.contents log.old) (W.contents log.new) (log_line key session.now) result }
    ensures nothing { logging ≡ false → result ≡ Put.Done }
    ensures quiet { logging ≡ false
        → (W.contents log.new ≡ W.contents log.old) × (W.faults log.new ≡ W.faults log.old) }
    ensures cause { PutCause (W.faults log.old) (W.faults log.new) result }
{
    if logging {
        session.log_line(key, log)
    } else {
        Put::Done
    }
}

// Does what a key of a line asks for: a confirmed line acts, and after a line that is finished or given up the next
// begins.
#[tactic(auto, using(crate::proofs::Outcomes::edits, crate::proofs::Outcomes::fails, crate::proofs::Outcomes::refuses, crate::proofs::Outcomes::abandons, crate::proofs::Outcomes::edits_next, crate::proofs::Outcomes::fails_next, crate::proofs::Outcomes::refuses_next, crate::proofs::Outcomes::abandons_next), unfolding(crate::specs::Cause::ObeyCause, crate::specs::Ready::IsReadyIn))]
fn finish_key<A: Application, S: Sink, C: Clock, L: Ledger>(
    turn: Turn,
    app: &mut A,
    session: &mut Session,
    screen: &mut S,
    clock: &mut C,
    steps: &mut Steps<L>,
) -> Result<(), Stop>
    requires at { IsAtLine A.means app.old session.old }
    requires parse { turn ≡ Turn.Confirmed → IsParse (setting_of A.means app.old) session.old.node
        (text_of session.old) session.old.fields ending.Done }
    ensures traces { IsTrue C.tells → (log : Contents) → (keys : List ℕ) → (gets : ℕ) → Traces
        (observation (S.contents screen.old) log keys gets (C.left clock.old) steps.old app.old)
        (observation (S.contents screen.new) log keys gets (C.left clock.new) steps.new app.new)
        (outcome_trace A.means app.old (turn_outcome A.means app.old session.old
        (moment_at A.means app.old (C.left clock.old)) turn)) result }
    ensures next { IsTrue C.tells → result ≡ Ok tt → run_state session.new app.new (C.left clock.new)
        ≡ step_of A.means session.old app.old (C.left clock.old) (turn_outcome A.means app.old session.old
        (moment_at A.means app.old (C.left clock.old)) turn) }
    ensures leads { result ≡ Ok tt → Leads (λ moments. step_of A.means session.old app.old moments
        (turn_outcome A.means app.old session.old (moment_at A.means app.old moments) turn)) session.new app.new }
    ensures ready { result ≡ Ok tt → IsReadyIn A.means app.new session.new }
    ensures cause { ObeyCause (S.faults screen.old) (S.faults screen.new) result }
    ensures spares { IsSparing A.means → result ≢ Err Stop.Memory }
{
    match turn {
        Turn::Edited => Ok(()),
        Turn::Failed => Ok(()),
        Turn::Confirmed => act(app, session, screen, clock, steps),
        Turn::Refused(_) => {
            app.refuse();
            open_line(app, session, screen)
        }
        Turn::Abandoned => {
            app.abandon();
            open_line(app, session, screen)
        }
    }
}

// The moment of a line that is confirmed.
fn moment_of<A: Application, C: Clock>(app: &A, clock: &mut C) -> u64
    ensures moment { IsTrue C.tells → result ≡ moment_at A.means app.now (C.left clock.old) }
    ensures later { IsTrue C.tells → C.left clock.new
        ≡ moments_later (takes_moment (A.means.mode_of app.now)) (C.left clock.old) }
    ensures none { takes_moment (A.means.mode_of app.now) ≡ false → result ≡ 0 }
{
    match app.mode() {
        Mode::Line { takes_moment, .. } => { if takes_moment { clock.now() } else { 0 } }
        Mode::Raw => 0,
        Mode::Ended => 0,
    }
}

// Does what a confirmed line commands, and begins the next.
#[tactic(auto, using(crate::proofs::Outcomes::acts_on, crate::proofs::Outcomes::acts_cut, crate::proofs::Causes::obey_cause_on), unfolding(crate::specs::Cause::ObeyCause))]
fn act<A: Application, S: Sink, C: Clock, L: Ledger>(
    app: &mut A,
    session: &mut Session,
    screen: &mut S,
    clock: &mut C,
    steps: &mut Steps<L>,
) -> Result<(), Stop>
    requires line { IsLineAt (A.means.mode_of app.old) session.old.node }
    requires parse { IsParse (setting_of A.means app.old) session.old.node (text_of session.old) session.old.fields
        ending.Done }
    ensures traces { IsTrue C.tells → (log : Contents) → (keys : List ℕ) → (gets : ℕ) → Traces
        (observation (S.contents screen.old) log keys gets (C.left clock.old) steps.old app.old)
        (observation (S.contents screen.new) log keys gets (C.left clock.new) steps.new app.new)
        (outcome_trace A.means app.old (turn_outcome A.means app.old session.old
        (moment_at A.means app.old (C.left clock.old)) Turn.Confirmed)) result }
    ensures next { IsTrue C.tells → result ≡ Ok tt → run_state session.new app.new (C.left clock.new)
        ≡ step_of A.means session.old app.old (C.left clock.old) (turn_outcome A.means app.old session.old
        (moment_at A.means app.old (C.left clock.old)) Turn.Confirmed) }
    ensures leads { result ≡ Ok tt → Leads (λ moments. step_of A.means session.old app.old moments
        (turn_outcome A.means app.old session.old (moment_at A.means app.old moments) Turn.Confirmed))
        session.new app.new }
    ensures ready { result ≡ Ok tt → IsReadyIn A.means app.new session.new }
    ensures cause { ObeyCause (S.faults screen.old) (S.faults screen.new) result }
    ensures spares { IsSparing A.means → result ≢ Err Stop.Memory }
{
    let moment = moment_of(app, clock);
    match confirm_line(app, session, moment, screen, steps) {
        Ok(()) => open_line(app, session, screen),
        Err(stop) => Err(stop),
    }
}

// Takes a raw key: shows what it does, logs it, and does it.
#[tactic(auto, using(crate::proofs::Causes::acts_cause, crate::proofs::Causes::echo_cause, crate::proofs::Causes::log_cause, crate::proofs::Causes::obey_cause_on, crate::proofs::Memory::acts_spare), unfolding(crate::specs::Cause::ObeyCause))]
fn handle_raw_key<A: Application, S: Sink, W: Sink>(
    logging: bool,
    key: u8,
    app: &mut A,
    session: &mut Session,
    screen: &mut S,
    log: &mut W,
) -> Result<(), Stop>
    ensures traces { (keys : List ℕ) → (gets : ℕ) → (moments : List ℕ) → (trials : ℕ) → Traces
        (observation (S.contents screen.old) (W.contents log.old) keys gets moments trials app.old)
        (observation (S.contents screen.new) (W.contents log.new) keys gets moments trials app.new)
        (keystroke_trace A.means logging app.old
        (raw_keystroke A.means (run_state session.old app.old moments) key)) result }
    ensures next { (moments : List ℕ) → result ≡ Ok tt → run_state session.new app.new moments
        ≡ step_by A.means (run_state session.old app.old moments)
        (raw_keystroke A.means (run_state session.old app.old moments) key) }
    ensures ready { result ≡ Ok tt → IsReadyIn A.means app.new session.new }
    ensures quiet { logging ≡ false
        → (W.contents log.new ≡ W.contents log.old) × (W.faults log.new ≡ W.faults log.old) }
    ensures cause { (keys : ℕ) → KeystrokeCause (counts (S.faults screen.old) (W.faults log.old) keys)
        (counts (S.faults screen.new) (W.faults log.new) keys) result }
    ensures spares { IsSparing A.means → result ≢ Err Stop.Memory }
{
    if let Put::Failed = app.echo_raw(key, screen) {
        return Err(Stop::Screen);
    }
    if let Put::Failed = log_raw(logging, key, log) {
        return Err(Stop::Log);
    }
    match app.obey_raw(key, screen) {
        Ok(()) => open_line(app, session, screen),
        Err(stop) => Err(stop),
    }
}

// Logs a raw key, where there is a log.
fn log_raw<W: Sink>(logging: bool, key: u8, log: &mut W) -> Put
    ensures bytes { logging ≡ true → Adds (W.contents log.old) (W.contents log.new) (raw_log key) result }
    ensures nothing { logging ≡ false → result ≡ Put.Done }
    ensures quiet { logging ≡ false
        → (W.contents log.new ≡ W.contents log.old) × (W.faults log.new ≡ W.faults log.old) }
    ensures cause { PutCause (W.faults log.old) (W.faults log.new) result }
{
    if logging {
        put_raw_log(key, log)
    } else {
        Put::Done
    }
}

#[tactic(auto, using(cm_io::proofs::Writers::finish_puts))]
fn put_raw_log<W: Sink>(key: u8, log: &mut W) -> Put
    ensures bytes { Adds (W.contents log.old) (W.contents log.new) (raw_log key) result }
    ensures cause { PutCause (W.faults log.old) (W.faults log.new) result }
{
    let mut out = Writer::new(log);
    write_raw_log(key, &mut out);
    out.finish()
}

// Writes `KEY data`, the key as two hexadecimal digits, and a line feed.
#[tactic(auto, using(cm_io::proofs::Texts::texts), unfolding(crate::specs::Trace::raw_log))]
fn write_raw_log<W: Sink>(key: u8, out: &mut Writer<'_, W>)
    ensures { Writes W.Sink out.old out.new (raw_log key) }
{
    out.put_hex(key);
    out.put(raw_mark());
}

#[tactic(auto, unfolding(crate::specs::Trace::raw_mark))]
fn raw_mark() -> &'static [u8]
    ensures { result.now ≡ raw_mark }
{
    b" data\n"
}
