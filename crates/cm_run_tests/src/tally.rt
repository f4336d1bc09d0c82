// An application that marks each line that it obeys.
ghost use Rattle.std.specs.Prelude.{◌≡◌, ◌≤◌};
ghost use Rattle.cm_io.specs.Contents.{Adds};
ghost use Rattle.cm_io.specs.Fault.{PutCause};
ghost use Rattle.cm_run_tests.specs.Tally.{mark_of};

use cm_blocks::{Ending, Grammar};
use cm_files::OneDirectory;
use cm_hooks::NoRules;
use cm_io::{Put, Sink};
use cm_run::{Application, Mode, Own, Stop};
use cm_state::{Prompt, Session};
use eg_template::grammar::SumGrammar;

// The lines that wait are empty.
#[derive(Drop)]
pub(crate) struct Tally {
    pub(crate) grammar: Own<SumGrammar>,
    pub(crate) names: OneDirectory,
    pub(crate) waits: u64,
}

// Puts the mark of a line.
fn put_mark<S: Sink>(session: &Session, screen: &mut S) -> Put
    ensures bytes { Adds (S.contents screen.old) (S.contents screen.new) (mark_of session.now.ending) result }
    ensures later { S.faults screen.old ≤ S.faults screen.new }
    ensures cause { PutCause (S.faults screen.old) (S.faults screen.new) result }
{
    screen.put(match session.ending() {
        Ending::Done => b"+",
        Ending::Open(_) | Ending::Fault(_) => b"-",
    })
}

impl Application for Tally {
    ghost use Rattle.cm_run_tests.specs.Tally.{tally_semantics};

    type Rules = NoRules;

    type Names = OneDirectory;

    ghost means = { tally_semantics };

    fn grammar(&self) -> &Grammar {
        self.grammar.lend()
    }

    fn names(&self) -> &OneDirectory {
        &self.names
    }

    fn rules(&self) -> &NoRules {
        &NoRules
    }

    #[tactic(auto, using(eg_template::proofs::Faultless::node_count))]
    fn mode(&self) -> Mode {
        Mode::Line {
            node: 0,
            prompt: Prompt::Main,
            takes_moment: false,
        }
    }

    #[tactic(auto, using(cm_run::proofs::Acts::obeys_done, cm_run::proofs::Acts::obeys_cut), unfolding(cm_run::specs::Cause::ObeyCause))]
    fn obey_line<S: Sink>(
        &mut self,
        session: &Session,
        _moment: u64,
        screen: &mut S,
    ) -> Result<(), Stop> {
        self.waits = self.waits.saturating_sub(1);
        match put_mark(session, screen) {
            Put::Done => Ok(()),
            Put::Failed => Err(Stop::Screen),
        }
    }

    fn refuse(&mut self) {}

    fn abandon(&mut self) {}

    #[tactic(auto, using(cm_io::proofs::Additions::add_none))]
    fn echo_raw<S: Sink>(&self, _key: u8, _screen: &mut S) -> Put {
        Put::Done
    }

    #[tactic(auto, using(cm_run::proofs::Acts::obeys_nothing), unfolding(cm_run::specs::Cause::ObeyCause))]
    fn obey_raw<S: Sink>(&mut self, _key: u8, _screen: &mut S) -> Result<(), Stop> {
        Ok(())
    }

    fn file_line(&self) -> Option<&[u8]> {
        if self.waits == 0 { None } else { Some(b"") }
    }

    #[tactic(auto, using(cm_run::proofs::Acts::obeys_done, cm_run::proofs::Acts::obeys_cut), unfolding(cm_run::specs::Cause::ObeyCause))]
    fn obey_file_line<S: Sink>(
        &mut self,
        session: &Session,
        _moment: u64,
        screen: &mut S,
    ) -> Result<(), Stop> {
        self.waits = self.waits.saturating_sub(1);
        match put_mark(session, screen) {
            Put::Done => Ok(()),
            Put::Failed => Err(Stop::Screen),
        }
    }
}
