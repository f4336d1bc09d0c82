// The EXEC with its command files, as the engine runs it.
ghost use Rattle.std.specs.Prelude.{◌≡◌};
ghost use Rattle.ex_take.specs.Exec.{counted_by};

use super::Exec;
use crate::interpreter::outcome_of;
use cm_blocks::{Ending, Grammar};
use cm_io::{Put, Sink};
use cm_run::{Application, Mode, Stop};
use cm_state::Session;
use ex_commands::Acted;
use ex_grammar::ExecRules;
use ex_store::Store;

impl Exec {
    // Counts a text that was typed in and is refused.
    fn count_refusal(&mut self, answer: Acted)
        ensures { self.new ≡ counted_by self.old answer }
    {
        if let Acted::Refused(_) = answer {
            self.refused = self.refused.saturating_add(1);
        }
    }
}

impl Application for Exec {
    ghost use Rattle.ex_take.specs.Exec.{exec_semantics};

    type Rules = ExecRules;

    type Names = Store;

    ghost means = { exec_semantics };

    fn grammar(&self) -> &Grammar {
        self.grammar.lend()
    }

    fn names(&self) -> &Store {
        self.interpreter.store()
    }

    fn rules(&self) -> &ExecRules {
        &ExecRules
    }

    fn mode(&self) -> Mode {
        self.interpreter.mode()
    }

    fn obey_line<S: Sink>(
        &mut self,
        session: &Session,
        moment: u64,
        screen: &mut S,
    ) -> Result<(), Stop> {
        self.obey_done(session, moment, screen)
    }

    fn refuse(&mut self) {
        self.refused = self.refused.saturating_add(1);
    }

    fn abandon(&mut self) {
        self.interpreter.abandon();
    }

    fn echo_raw<S: Sink>(&self, key: u8, screen: &mut S) -> Put {
        self.interpreter.echo_raw(key, screen)
    }

    fn obey_raw<S: Sink>(&mut self, key: u8, screen: &mut S) -> Result<(), Stop> {
        let answer = self.interpreter.obey_raw(key, screen);
        let answer = &answer;
        self.count_refusal(*answer);
        outcome_of(*answer)
    }

    fn file_line(&self) -> Option<&[u8]> {
        match self.files.last() {
            Some(file) => file.line(),
            None => None,
        }
    }

    fn obey_file_line<S: Sink>(
        &mut self,
        session: &Session,
        moment: u64,
        screen: &mut S,
    ) -> Result<(), Stop> {
        self.pass();
        match session.ending() {
            Ending::Done => self.obey_done(session, moment, screen),
            Ending::Fault(fault) => self.refuse_line(fault.code, screen),
            Ending::Open(_) => self.settle(screen),
        }
    }
}
