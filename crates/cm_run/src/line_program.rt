// Programs that act by lines alone.
ghost use Rattle.std.specs.Prelude.{◌≡◌, ◌≤◌, [], IsTrue};
ghost use Rattle.cm_io.specs.Contents.{Adds, Number};
ghost use Rattle.cm_io.specs.Fault.{PutCause};
ghost use Rattle.cm_io.specs.Pieces.{shown_lines};
ghost use Rattle.cm_blocks.specs.Parse.{IsParse};
ghost use Rattle.cm_blocks.specs.declared.field.Ending.TheVariants as ending;
ghost use Rattle.cm_state.specs.SessionState.{text_of};
ghost use Rattle.cm_run.specs.LineSemantics.{line_mode, lines_only};
ghost use Rattle.cm_run.specs.Semantics.{IsLineAt, setting_of};
ghost use Rattle.cm_run.specs.LineRun.{LineCause, LineRun, status_of};
ghost use Rattle.cm_run.specs.Observation.{observation};

use crate::{Application, Mode, NoClock, Stop, run};
use cm_blocks::{Grammar, Steps};
use cm_files::Names;
use cm_hooks::Rules;
use cm_io::{CountSink, Put, Sink, Source, Writer};
use cm_state::{Prompt, Session};
use std::sync::ledger::Ledger;

/// The most keys that the run of such a program takes.
pub const LINE_KEYS: u64 = u64::MAX;

/// A program that acts by lines alone: a line that is confirmed changes its state and shows lines, and nothing else
/// does. It takes no raw keys, no command files, no moments and no memory. Each such program is an `Application`,
/// `run_line_program` runs it, and a display shows its prompt and line between the keys
/// ([`laws`](crate::laws::a_line_program_keeps_the_screen)).
pub trait LineProgram {
    ghost use Rattle.std.specs.Prelude.{◌≡◌, ◌<◌, IfSome, length};
    ghost use Rattle.cm_io.specs.Pieces.{shown_lines};
    ghost use Rattle.cm_io.specs.Writer.{Writes};
    ghost use Rattle.cm_blocks.specs.Parse.{IsParse};
    ghost use Rattle.cm_blocks.specs.declared.field.Ending.TheVariants as ending;
    ghost use Rattle.cm_state.specs.SessionState.{SessionState, text_of};
    ghost use Rattle.cm_run.specs.LineSemantics.{HasPrinted, LineSemantics, line_mode, lines_only};
    ghost use Rattle.cm_run.specs.Semantics.{IsLineAt, setting_of};

    /// What it says of its own kinds of field.
    type Rules: Rules;

    /// The directories and files that its lines may name.
    type Names: Names;

    /// What it means.
    ghost means: { LineSemantics Self };

    /// What holds of its state as it begins, and on after each line that is confirmed. Where its prompts are fixed
    /// texts that may be nothing, `Unit {0}`.
    ghost keeps: { Self → Type 0 };

    /// It holds on after each line that is confirmed.
    ghost kept: { (state : Self) → (session : SessionState) → keeps state → keeps (means.state_of state session) };

    /// While it holds, the prompts are printed bytes.
    ghost prompts: { (state : Self) → keeps state → HasPrinted (means.line_of state) };

    /// The grammar that a line is parsed under now.
    fn grammar(&self) -> &Grammar
        ensures { result.now ≡ means.graph_of self.now };

    /// The directories and files that a line may name now.
    fn names(&self) -> &Self::Names
        ensures { Self.Names.catalogue result.now ≡ means.catalogue_of self.now };

    /// What it says now of its own kinds of field.
    fn rules(&self) -> &Self::Rules
        ensures { Self.Rules.meanings result.now ≡ means.rules_of self.now };

    /// The node at which the next line begins, and what it is asked for with. There is none where the program has
    /// ended.
    fn line(&self) -> Option<(u16, Prompt)>
        ensures line { result ≡ means.line_of self.now }
        ensures node { IfSome result (λ line. line.0 < length (means.graph_of self.now).nodes) };

    /// Does what a confirmed line commands, and writes the lines that it shows. The state is that of the line also
    /// where the screen fails.
    fn obey<S: Sink>(&mut self, session: &Session, out: &mut Writer<'_, S>)
        requires line { IsLineAt (line_mode (means.line_of self.old)) session.now.node }
        requires parse { IsParse (setting_of (lines_only means) self.old) session.now.node (text_of session.now)
            session.now.fields ending.Done }
        ensures state { self.new ≡ means.state_of self.old session.now }
        ensures reply { Writes S.Sink out.old out.new (shown_lines (means.reply_of self.old session.now)) };
}

// Does what a confirmed line commands, and puts what it shows.
#[tactic(auto, using(cm_io::proofs::Writers::finish_puts))]
fn obey_on<P: LineProgram, S: Sink>(program: &mut P, session: &Session, screen: &mut S) -> Put
    requires line { IsLineAt (line_mode (P.means.line_of program.old)) session.now.node }
    requires parse { IsParse (setting_of (lines_only P.means) program.old) session.now.node (text_of session.now)
        session.now.fields ending.Done }
    ensures state { program.new ≡ P.means.state_of program.old session.now }
    ensures reply { Adds (S.contents screen.old) (S.contents screen.new)
        (shown_lines (P.means.reply_of program.old session.now)) result }
    ensures later { S.faults screen.old ≤ S.faults screen.new }
    ensures cause { PutCause (S.faults screen.old) (S.faults screen.new) result }
{
    let mut out = Writer::new(screen);
    program.obey(session, &mut out);
    out.finish()
}

impl<P: LineProgram> Application for P {
    ghost use Rattle.cm_run.specs.LineSemantics.{lines_only};

    type Rules = P::Rules;

    type Names = P::Names;

    ghost means = { lines_only P.means };

    fn grammar(&self) -> &Grammar {
        LineProgram::grammar(self)
    }

    fn names(&self) -> &P::Names {
        LineProgram::names(self)
    }

    fn rules(&self) -> &P::Rules {
        LineProgram::rules(self)
    }

    fn mode(&self) -> Mode {
        match self.line() {
            Some((node, prompt)) => Mode::Line {
                node,
                prompt,
                takes_moment: false,
            },
            None => Mode::Ended,
        }
    }

    #[tactic(auto, using(crate::proofs::Acts::obeys_done, crate::proofs::Acts::obeys_cut), unfolding(crate::specs::Cause::ObeyCause))]
    fn obey_line<S: Sink>(
        &mut self,
        session: &Session,
        _moment: u64,
        screen: &mut S,
    ) -> Result<(), Stop> {
        match obey_on(self, session, screen) {
            Put::Done => Ok(()),
            Put::Failed => Err(Stop::Screen),
        }
    }

    fn refuse(&mut self) {}

    fn abandon(&mut self) {}

    #[tactic(auto, using(cm_io::proofs::Additions::add_none))]
    fn echo_raw<S: Sink>(&self, _key: u8, _screen: &mut S) -> Put {
        Put::Done
    }

    #[tactic(auto, using(crate::proofs::Acts::obeys_nothing), unfolding(crate::specs::Cause::ObeyCause))]
    fn obey_raw<S: Sink>(&mut self, _key: u8, _screen: &mut S) -> Result<(), Stop> {
        Ok(())
    }

    fn file_line(&self) -> Option<&[u8]> {
        None
    }

    #[tactic(auto, using(crate::proofs::Acts::obeys_nothing), unfolding(crate::specs::Cause::ObeyCause))]
    fn obey_file_line<S: Sink>(
        &mut self,
        _session: &Session,
        _moment: u64,
        _screen: &mut S,
    ) -> Result<(), Stop> {
        Ok(())
    }
}

/// Runs a program of lines alone: shows the first prompt and takes the keys in turn, until the program has ended, no
/// key is left, or keys or screen fail. There is no log and no clock.
#[tactic(auto, using(crate::proofs::LinePrograms::line_cause))]
pub fn run_line_program<P: LineProgram, K: Source, S: Sink, L: Ledger>(
    program: &mut P,
    keys: &mut K,
    screen: &mut S,
    steps: &mut Steps<L>,
) -> Result<(), Stop>
    // [key-limit] What stands is the trace of the run, or a cut of it.
    ensures stands { IsTrue K.tells → LineRun P.means
        (observation (S.contents screen.old) (Number 0) (K.left keys.old) (K.gets keys.old) [] steps.old program.old)
        (observation (S.contents screen.new) (Number 0) (K.left keys.new) (K.gets keys.new) [] steps.new program.new)
        result }
    // When each answer comes, by the counts of faults.
    ensures cause { LineCause (K.faults keys.old) (K.faults keys.new)
        (S.faults screen.old) (S.faults screen.new) result }
{
    let mut log = CountSink::new();
    let mut clock = NoClock;
    run(
        LINE_KEYS, false, program, keys, screen, &mut log, &mut clock, steps,
    )
}

/// The number that a process ends with whose run ended so: 0 where it went to its end or as many keys were taken as it
/// takes, 1 where the keys failed, 2 where the screen did, and 3 for lack of memory, which may be before the first
/// prompt.
pub fn status_of(outcome: Result<(), Stop>) -> u8
    ensures { result ≡ status_of outcome }
{
    match outcome {
        Ok(()) | Err(Stop::Limit) => 0,
        Err(Stop::Keys) => 1,
        Err(Stop::Screen | Stop::Log) => 2,
        Err(Stop::Memory) => 3,
    }
}
