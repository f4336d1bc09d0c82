// The EXEC under a controller.
ghost use Rattle.std.specs.Prelude.{◌≡◌, ◌≤◌, [], ◌∷◌, None, Some};
ghost use Rattle.cm_blocks.specs.Parse.{IsParse};
ghost use Rattle.cm_blocks.specs.Setting.{setting};
ghost use Rattle.cm_blocks.specs.declared.field.Ending.TheVariants as ending;
ghost use Rattle.cm_run.specs.Cause.{ObeyCause};
ghost use Rattle.cm_run.specs.Semantics.{IsLineAt};
ghost use Rattle.cm_run.specs.Obey.{Obeys, stage};
ghost use Rattle.cm_state.specs.SessionState.{text_of};
ghost use Rattle.ex_grammar.specs.ExecRules.{exec_meanings};
ghost use Rattle.ex_grammar.specs.Graph.{exec_graph};
ghost use Rattle.ex_store.specs.State.{catalogue_of};
ghost use Rattle.ex_take.specs.Exec.{refuses};
ghost use Rattle.ex_take.specs.ExecState.{exec_start, forgiven};
ghost use Rattle.ex_take.specs.Interpreter.{command_at, mode_of};
ghost use Rattle.ex_batch.specs.Job.{bar_of, job_effects, order_effects};

use cm_blocks::{Ending, Grammar};
use cm_fields::Code;
use cm_io::{Put, Sink};
use cm_run::{Application, Mode, Own, Stop};
use cm_state::Session;
use ex_commands::Command;
use ex_grammar::ExecRules;
use ex_store::Store;
use ex_take::{Exec, ExecGrammar};
use std::alloc::Global;
use std::marker::Model;

/// The EXEC under a controller, which hands it lines: one that is handed in where nothing is left to be done types no
/// file in, and begins no subcommands. Contracts see the state of the EXEC.
#[derive(Drop)]
pub struct Job {
    exec: Exec,
}

impl Model for Job {
    ghost use Rattle.ex_take.specs.ExecState.{ExecState};

    ghost Value = { ExecState };

    ghost view = { λ it. it.exec };
}

// Why a command may not be in a control file.
#[tactic(auto, unfolding(crate::specs::Job::bar_of))]
fn bar_of(command: &Command) -> Option<Code>
    ensures { result ≡ bar_of command.now }
{
    match command {
        Command::CopyTty { .. } => Some(Code::NotInTake),
        _ => {
            if command.is_pending() {
                Some(Code::NoSubcommands)
            } else {
                None
            }
        }
    }
}

impl Job {
    /// The EXEC with its grammar, over a store. The memory for what is taken is `alloc`.
    pub fn new(alloc: Global, grammar: Own<ExecGrammar>, store: Store) -> Job
        ensures { result ≡ exec_start store.state }
    {
        Job {
            exec: Exec::new(alloc, grammar, store),
        }
    }

    /// Its directories and files.
    pub fn store(&self) -> &Store
        ensures { result.now.state ≡ self.now.interpreter.state }
    {
        self.exec.store()
    }

    /// Whether LOGOUT has acted.
    pub fn has_ended(&self) -> bool
        ensures { result ≡ self.now.interpreter.ended }
    {
        self.exec.has_ended()
    }

    /// Why the last line was refused, if it was.
    pub fn stop(&self) -> Option<Code>
        ensures { result ≡ self.now.stop }
    {
        self.exec.stop()
    }

    /// Forgets why the last line was refused.
    pub fn forgive(&mut self)
        // [error-flag]
        ensures { self.new ≡ forgiven self.old }
    {
        self.exec.forgive();
    }

    /// Refuses a line: shows why.
    pub fn refuse_line<S: Sink>(&mut self, code: Code, screen: &mut S) -> Result<(), Stop>
        ensures obeys { Obeys (stage (S.contents screen.old) self.old) (stage (S.contents screen.new) self.new)
            (refuses code self.old ∷ []) result }
        ensures later { S.faults screen.old ≤ S.faults screen.new }
        ensures cause { ObeyCause (S.faults screen.old) (S.faults screen.new) result }
    {
        self.exec.refuse_line(code, screen)
    }

    // Does what a line commands, unless it may not be in a control file.
    fn obey_order<S: Sink>(
        &mut self,
        session: &Session,
        moment: u64,
        screen: &mut S,
    ) -> Result<(), Stop>
        requires line { IsLineAt (mode_of self.old.interpreter) session.now.node }
        requires parse { IsParse (setting exec_graph (catalogue_of self.old.interpreter.state) exec_meanings)
            session.now.node (text_of session.now) session.now.fields ending.Done }
        requires free { self.old.interpreter.pending ≡ None }
        ensures obeys { Obeys (stage (S.contents screen.old) self.old) (stage (S.contents screen.new) self.new)
            (job_effects self.old moment (command_at self.old.interpreter session.now)) result }
        ensures later { S.faults screen.old ≤ S.faults screen.new }
        ensures cause { ObeyCause (S.faults screen.old) (S.faults screen.new) result }
    {
        let command = self.exec.command_of(session);
        match bar_of(&command) {
            Some(code) => self.exec.refuse_line(code, screen),
            None => self.exec.obey_command(command, moment, screen),
        }
    }

    // Does what a line of the control file says.
    #[tactic(auto, unfolding(cm_run::specs::Cause::ObeyCause))]
    fn take_order<S: Sink>(
        &mut self,
        session: &Session,
        moment: u64,
        screen: &mut S,
    ) -> Result<(), Stop>
        requires line { IsLineAt (mode_of self.old.interpreter) session.now.node }
        requires parse { IsParse (setting exec_graph (catalogue_of self.old.interpreter.state) exec_meanings)
            session.now.node (text_of session.now) session.now.fields session.now.ending }
        requires free { self.old.interpreter.pending ≡ None }
        ensures obeys { Obeys (stage (S.contents screen.old) self.old) (stage (S.contents screen.new) self.new)
            (order_effects self.old session.now moment session.now.ending) result }
        ensures later { S.faults screen.old ≤ S.faults screen.new }
        ensures cause { ObeyCause (S.faults screen.old) (S.faults screen.new) result }
    {
        match session.ending() {
            Ending::Done => self.obey_order(session, moment, screen),
            Ending::Fault(fault) => self.exec.refuse_line(fault.code, screen),
            Ending::Open(_) => Ok(()),
        }
    }
}

impl Application for Job {
    ghost use Rattle.ex_batch.specs.Job.{job_semantics};

    type Rules = ExecRules;

    type Names = Store;

    ghost means = { job_semantics };

    fn grammar(&self) -> &Grammar {
        self.exec.grammar()
    }

    fn names(&self) -> &Store {
        self.exec.names()
    }

    fn rules(&self) -> &ExecRules {
        self.exec.rules()
    }

    fn mode(&self) -> Mode {
        self.exec.mode()
    }

    fn obey_line<S: Sink>(
        &mut self,
        session: &Session,
        moment: u64,
        screen: &mut S,
    ) -> Result<(), Stop> {
        self.exec.obey_line(session, moment, screen)
    }

    fn refuse(&mut self) {
        self.exec.refuse();
    }

    fn abandon(&mut self) {
        self.exec.abandon();
    }

    fn echo_raw<S: Sink>(&self, key: u8, screen: &mut S) -> Put {
        self.exec.echo_raw(key, screen)
    }

    fn obey_raw<S: Sink>(&mut self, key: u8, screen: &mut S) -> Result<(), Stop> {
        self.exec.obey_raw(key, screen)
    }

    fn file_line(&self) -> Option<&[u8]> {
        self.exec.file_line()
    }

    #[tactic(auto, using(crate::proofs::Jobs::rest_waits, crate::proofs::Jobs::job_rests, crate::proofs::Jobs::job_goes_on))]
    fn obey_file_line<S: Sink>(
        &mut self,
        session: &Session,
        moment: u64,
        screen: &mut S,
    ) -> Result<(), Stop> {
        if self.exec.is_at_rest() {
            self.take_order(session, moment, screen)
        } else {
            self.exec.obey_file_line(session, moment, screen)
        }
    }
}
