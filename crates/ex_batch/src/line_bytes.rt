// A line as it is shown.
ghost use Rattle.std.specs.Prelude.{◌≤◌, ℕ, List, [], ◌∷◌};
ghost use Rattle.cm_io.specs.Fault.{PutCause};
ghost use Rattle.cm_io.specs.Contents.{Adds, Contents};
ghost use Rattle.cm_io.specs.Writer.{Writes};
ghost use Rattle.cm_run.specs.Cause.{ObeyCause};
ghost use Rattle.cm_run.specs.Cut.{Traces};
ghost use Rattle.cm_run.specs.Event.{Screen};
ghost use Rattle.cm_run.specs.Observation.{observation};
ghost use Rattle.ex_take.specs.ExecState.{ExecState};
ghost use Rattle.ex_batch.specs.Batch.{shown};

use cm_io::{Put, Sink, Writer};
use cm_run::Stop;
use cm_text::end_of_line;
use ex_commands::put_printing;

// Puts a line as it is shown.
#[tactic(auto, using(cm_io::proofs::Texts::texts), unfolding(crate::specs::Batch::shown))]
fn put_shown<S: Sink>(line: &[u8], out: &mut Writer<'_, S>)
    ensures { Writes S.Sink out.old out.new (shown line.now) }
{
    put_printing(line, out);
    out.put(end_of_line());
}

// Puts it on a sink.
#[tactic(auto, using(cm_io::proofs::Writers::finish_puts))]
fn put_on<S: Sink>(line: &[u8], screen: &mut S) -> Put
    ensures bytes { Adds (S.contents screen.old) (S.contents screen.new) (shown line.now) result }
    ensures later { S.faults screen.old ≤ S.faults screen.new }
    ensures cause { PutCause (S.faults screen.old) (S.faults screen.new) result }
{
    let mut out = Writer::new(screen);
    put_shown(line, &mut out);
    out.finish()
}

/// Shows a line of a control file.
#[tactic(auto, using(cm_run::proofs::ShownBytes::shows_whole, cm_run::proofs::ShownBytes::shows_part), unfolding(cm_run::specs::Cause::ObeyCause))]
pub(crate) fn show_line<S: Sink>(line: &[u8], screen: &mut S) -> Result<(), Stop>
    ensures traces { (log : Contents) → (keys : List ℕ) → (gets : ℕ) → (moments : List ℕ) → (trials : ℕ)
        → (at : ExecState)
        → Traces (observation (S.contents screen.old) log keys gets moments trials at)
        (observation (S.contents screen.new) log keys gets moments trials at) (Screen (shown line.now) ∷ []) result }
    ensures later { S.faults screen.old ≤ S.faults screen.new }
    ensures cause { ObeyCause (S.faults screen.old) (S.faults screen.new) result }
{
    match put_on(line, screen) {
        Put::Done => Ok(()),
        Put::Failed => Err(Stop::Screen),
    }
}
