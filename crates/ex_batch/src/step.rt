// The outcome of one line of a control file.
ghost use Rattle.std.specs.Prelude.{◌≡◌, ◌≤◌, ◌<◌, ◌+◌, ◌^◌, ℕ, List, Some, slice_get};
ghost use Rattle.cm_io.specs.Clock.{next_moment};
ghost use Rattle.cm_io.specs.Contents.{Contents};
ghost use Rattle.cm_run.specs.Cause.{ObeyCause};
ghost use Rattle.cm_run.specs.Cut.{Traces};
ghost use Rattle.cm_run.specs.Event.{Moment};
ghost use Rattle.cm_run.specs.Observation.{observation};
ghost use Rattle.ex_batch.specs.Control.{AreNamed, IsNamed, control_view, order_view};
ghost use Rattle.ex_batch.specs.Batch.{after_event, after_text, condition_step, control_step, is_met, label_next, line_step, nothing_but, order_step, text_step, text_trace, unless_refused};
ghost use Rattle.ex_batch.specs.Moments.{OverMoments};
ghost use Rattle.ex_batch.specs.Takes.{Takes, step_outcome};

use crate::control::{Control, Order, control_of, parsable};
use crate::file::ControlFile;
use crate::job::Job;
use crate::line_bytes::show_line;
use cm_blocks::Steps;
use cm_fields::Code;
use cm_io::{Clock, Sink};
use cm_run::{Stop, run_line};
use std::sync::ledger::Ledger;

/// How a run over the lines of a control file ends.
#[derive(Clone, Copy, Debug, PartialEq, Eq)]
pub enum Ended {
    /// At the last line, or at LOGOUT.
    Finished,
    /// At a line, for this reason.
    Stopped(Code),
}

/// Where a run over the lines of a control file goes on.
#[derive(Clone, Copy)]
pub(crate) enum Next {
    /// At the line with this place.
    Line(usize),
    /// Nowhere: it is over.
    Over(Ended),
}

// Takes a line of the EXEC's.
#[tactic(auto, using(crate::proofs::StepCuts::text_taken, crate::proofs::StepCuts::text_refused))]
fn take_text<S: Sink, L: Ledger>(
    text: &[u8],
    job: &mut Job,
    moment: u64,
    screen: &mut S,
    steps: &mut Steps<L>,
) -> Result<(), Stop>
    ensures traces { (log : Contents) → (keys : List ℕ) → (gets : ℕ) → (moments : List ℕ) → Traces
        (observation (S.contents screen.old) log keys gets moments steps.old job.old)
        (observation (S.contents screen.new) log keys gets moments steps.new job.new)
        (text_trace moment job.old text.now) result }
    ensures later { S.faults screen.old ≤ S.faults screen.new }
    ensures cause { ObeyCause (S.faults screen.old) (S.faults screen.new) result }
{
    match parsable(text) {
        Some(line) => run_line(job, line, moment, screen, steps),
        None => job.refuse_line(Code::BadLine, screen),
    }
}

// Where the run goes on after a line of the EXEC's.
fn after_text(place: usize, job: &Job) -> Next
    requires { place + 1 < 2 ^ 64 }
    ensures { result ≡ after_text place job.now }
{
    if job.has_ended() {
        Next::Over(Ended::Finished)
    } else {
        Next::Line(place + 1)
    }
}

// Takes a line of the EXEC's, at a moment of its own.
fn do_text<S: Sink, C: Clock, L: Ledger>(
    place: usize,
    text: &[u8],
    job: &mut Job,
    screen: &mut S,
    clock: &mut C,
    steps: &mut Steps<L>,
) -> Result<Next, Stop>
    requires within { place + 1 < 2 ^ 64 }
    ensures takes { OverMoments C.tells (C.left clock.old) (C.left clock.new) (λ given later.
        (log : Contents) → (keys : List ℕ) → (gets : ℕ) → Takes
        (observation (S.contents screen.old) log keys gets given steps.old job.old)
        (observation (S.contents screen.new) log keys gets later steps.new job.new)
        (after_event Moment (text_step place (next_moment given) job.old text.now)) result) }
    ensures later { S.faults screen.old ≤ S.faults screen.new }
    ensures cause { ObeyCause (S.faults screen.old) (S.faults screen.new) (step_outcome result) }
{
    let moment = clock.now();
    match take_text(text, job, moment, screen, steps) {
        Ok(()) => Ok(after_text(place, job)),
        Err(stop) => Err(stop),
    }
}

// Where the run goes on at a label.
fn label_next(place: Option<usize>) -> Next
    ensures { result ≡ label_next place }
{
    match place {
        Some(place) => Next::Line(place),
        None => Next::Over(Ended::Stopped(Code::NoLabel)),
    }
}

// Does an order.
#[tactic(auto, using(crate::proofs::StepCuts::nothing_taken), unfolding(cm_run::specs::Cause::ObeyCause, crate::specs::Batch::order_step))]
fn do_order<S: Sink, C: Clock, L: Ledger>(
    file: &ControlFile,
    place: usize,
    order: Order<'_>,
    job: &mut Job,
    screen: &mut S,
    clock: &mut C,
    steps: &mut Steps<L>,
) -> Result<Next, Stop>
    requires within { place + 1 < 2 ^ 64 }
    requires named { IsNamed (order_view order) }
    ensures takes { OverMoments C.tells (C.left clock.old) (C.left clock.new) (λ given later.
        (log : Contents) → (keys : List ℕ) → (gets : ℕ) → Takes
        (observation (S.contents screen.old) log keys gets given steps.old job.old)
        (observation (S.contents screen.new) log keys gets later steps.new job.new)
        (order_step file.now place given job.old (order_view order.entry)) result) }
    ensures later { S.faults screen.old ≤ S.faults screen.new }
    ensures cause { ObeyCause (S.faults screen.old) (S.faults screen.new) (step_outcome result) }
{
    match order {
        Order::Goto(name) => Ok(label_next(file.place(name))),
        Order::Exec(text) => do_text(place, text, job, screen, clock, steps),
        Order::Bad => Ok(Next::Over(Ended::Stopped(Code::BadControl))),
    }
}

// Whether a condition is met.
fn is_met(error: bool, why: Option<Code>) -> bool
    ensures { result ≡ is_met error why }
{
    if error { why.is_some() } else { why.is_none() }
}

// Forgives a refusal, and does an order where the condition was met.
#[tactic(auto, using(crate::proofs::StepCuts::nothing_taken), unfolding(cm_run::specs::Cause::ObeyCause))]
fn do_condition<S: Sink, C: Clock, L: Ledger>(
    met: bool,
    file: &ControlFile,
    place: usize,
    order: Order<'_>,
    job: &mut Job,
    screen: &mut S,
    clock: &mut C,
    steps: &mut Steps<L>,
) -> Result<Next, Stop>
    requires within { place + 1 < 2 ^ 64 }
    requires named { IsNamed (order_view order) }
    ensures takes { OverMoments C.tells (C.left clock.old) (C.left clock.new) (λ given later.
        (log : Contents) → (keys : List ℕ) → (gets : ℕ) → Takes
        (observation (S.contents screen.old) log keys gets given steps.old job.old)
        (observation (S.contents screen.new) log keys gets later steps.new job.new)
        (condition_step file.now place given job.old met (order_view order.entry)) result) }
    ensures later { S.faults screen.old ≤ S.faults screen.new }
    ensures cause { ObeyCause (S.faults screen.old) (S.faults screen.new) (step_outcome result) }
{
    job.forgive();
    if met {
        do_order(file, place, order, job, screen, clock, steps)
    } else {
        Ok(Next::Line(place + 1))
    }
}

// Does an order, unless the line before was refused.
#[tactic(auto, using(crate::proofs::StepCuts::nothing_taken), unfolding(cm_run::specs::Cause::ObeyCause))]
fn do_unless_refused<S: Sink, C: Clock, L: Ledger>(
    file: &ControlFile,
    place: usize,
    order: Order<'_>,
    job: &mut Job,
    screen: &mut S,
    clock: &mut C,
    steps: &mut Steps<L>,
) -> Result<Next, Stop>
    requires within { place + 1 < 2 ^ 64 }
    requires named { IsNamed (order_view order) }
    ensures takes { OverMoments C.tells (C.left clock.old) (C.left clock.new) (λ given later.
        (log : Contents) → (keys : List ℕ) → (gets : ℕ) → Takes
        (observation (S.contents screen.old) log keys gets given steps.old job.old)
        (observation (S.contents screen.new) log keys gets later steps.new job.new)
        (unless_refused job.old.stop (order_step file.now place given job.old (order_view order.entry)))
        result) }
    ensures later { S.faults screen.old ≤ S.faults screen.new }
    ensures cause { ObeyCause (S.faults screen.old) (S.faults screen.new) (step_outcome result) }
{
    match job.stop() {
        Some(code) => Ok(Next::Over(Ended::Stopped(code))),
        None => do_order(file, place, order, job, screen, clock, steps),
    }
}

// Where the run goes on after a label.
fn after_label(place: usize, job: &Job) -> Next
    requires { place + 1 < 2 ^ 64 }
    ensures { result ≡ (unless_refused job.now.stop (nothing_but (Next.Line (place + 1)))).next }
{
    match job.stop() {
        Some(code) => Next::Over(Ended::Stopped(code)),
        None => Next::Line(place + 1),
    }
}

// Does what a line is.
#[tactic(auto, using(crate::proofs::StepCuts::nothing_taken), unfolding(cm_run::specs::Cause::ObeyCause, crate::specs::Batch::control_step))]
fn do_control<S: Sink, C: Clock, L: Ledger>(
    file: &ControlFile,
    place: usize,
    control: Control<'_>,
    job: &mut Job,
    screen: &mut S,
    clock: &mut C,
    steps: &mut Steps<L>,
) -> Result<Next, Stop>
    requires within { place + 1 < 2 ^ 64 }
    requires named { AreNamed (control_view control) }
    ensures takes { OverMoments C.tells (C.left clock.old) (C.left clock.new) (λ given later.
        (log : Contents) → (keys : List ℕ) → (gets : ℕ) → Takes
        (observation (S.contents screen.old) log keys gets given steps.old job.old)
        (observation (S.contents screen.new) log keys gets later steps.new job.new)
        (control_step file.now place given job.old (control_view control.entry)) result) }
    ensures later { S.faults screen.old ≤ S.faults screen.new }
    ensures cause { ObeyCause (S.faults screen.old) (S.faults screen.new) (step_outcome result) }
{
    match control {
        Control::Nothing => Ok(Next::Line(place + 1)),
        Control::Condition { error, order } => do_condition(
            is_met(error, job.stop()),
            file,
            place,
            order,
            job,
            screen,
            clock,
            steps,
        ),
        Control::Label(_) => Ok(after_label(place, job)),
        Control::Plain(order) => do_unless_refused(file, place, order, job, screen, clock, steps),
    }
}

/// Takes the line at a place: shows it, and does what it is.
#[tactic(auto, using(crate::proofs::StepCuts::nothing_taken), unfolding(cm_run::specs::Cause::ObeyCause, crate::specs::Batch::line_step))]
pub(crate) fn take_control<S: Sink, C: Clock, L: Ledger>(
    file: &ControlFile,
    place: usize,
    job: &mut Job,
    screen: &mut S,
    clock: &mut C,
    steps: &mut Steps<L>,
) -> Result<Next, Stop>
    ensures takes { OverMoments C.tells (C.left clock.old) (C.left clock.new) (λ given later.
        (log : Contents) → (keys : List ℕ) → (gets : ℕ) → Takes
        (observation (S.contents screen.old) log keys gets given steps.old job.old)
        (observation (S.contents screen.new) log keys gets later steps.new job.new)
        (line_step file.now place given job.old (slice_get file.now place)) result) }
    ensures later { S.faults screen.old ≤ S.faults screen.new }
    ensures cause { ObeyCause (S.faults screen.old) (S.faults screen.new) (step_outcome result) }
{
    let Some(line) = file.line(place) else {
        return Ok(Next::Over(Ended::Finished));
    };
    match show_line(line, screen) {
        Ok(()) => do_control(file, place, control_of(line), job, screen, clock, steps),
        Err(stop) => Err(stop),
    }
}
