// What lines do, typed ones and those of files.
ghost use Rattle.std.specs.Prelude.{◌≡◌, ◌≤◌, None};
ghost use Rattle.cm_blocks.specs.Parse.{IsParse};
ghost use Rattle.cm_blocks.specs.Setting.{setting};
ghost use Rattle.cm_blocks.specs.declared.field.Ending.TheVariants as ending;
ghost use Rattle.cm_run.specs.Cause.{ObeyCause};
ghost use Rattle.cm_run.specs.Semantics.{IsLineAt};
ghost use Rattle.cm_run.specs.Obey.{Obeys, stage};
ghost use Rattle.cm_state.specs.SessionState.{text_of};
ghost use Rattle.ex_commands.specs.Answer.{MayAct};
ghost use Rattle.ex_commands.specs.Command.{subcommand_node};
ghost use Rattle.ex_grammar.specs.ExecRules.{exec_meanings};
ghost use Rattle.ex_grammar.specs.Graph.{exec_graph};
ghost use Rattle.ex_store.specs.Plan.{IsSource};
ghost use Rattle.ex_store.specs.State.{catalogue_of};
ghost use Rattle.ex_take.specs.Interpreter.{mode_of};
ghost use Rattle.ex_take.specs.InterpreterState.{InterpreterState};
ghost use Rattle.ex_take.specs.Exec.{acts, command_effects, line_effects, passed, pending_effects, take_effects, typing_effects};

use super::{Exec, MOST_FILES};
use crate::Pending;
use crate::command_file::CommandFile;
use crate::interpreter::outcome_of;
use cm_fields::Code;
use cm_io::Sink;
use cm_run::Stop;
use cm_state::Session;
use ex_commands::{Command, file_bytes};
use ex_store::Place;

impl Exec {
    // Has the EXEC do a command, and goes on after it.
    fn act<S: Sink>(&mut self, command: Command, moment: u64, screen: &mut S) -> Result<(), Stop>
        requires may_act { MayAct command self.old.interpreter.state }
        requires line { self.old.interpreter.typing ≡ None }
        requires free { self.old.interpreter.pending ≡ None }
        ensures obeys { Obeys (stage (S.contents screen.old) self.old) (stage (S.contents screen.new) self.new)
            (acts self.old moment command) result }
        ensures later { S.faults screen.old ≤ S.faults screen.new }
        ensures cause { ObeyCause (S.faults screen.old) (S.faults screen.new) result }
    {
        let answer = self.interpreter.obey(command, moment, screen);
        let answer = &answer;
        match outcome_of(*answer) {
            Ok(()) => self.follow(*answer, screen),
            Err(stop) => Err(stop),
        }
    }

    /// Opens a command file, unless too many are open.
    pub(crate) fn take<S: Sink>(&mut self, file: &Place, screen: &mut S) -> Result<(), Stop>
        requires source { IsSource file.now self.old.interpreter.state }
        ensures obeys { Obeys (stage (S.contents screen.old) self.old) (stage (S.contents screen.new) self.new)
            (take_effects self.old file.now) result }
        ensures later { S.faults screen.old ≤ S.faults screen.new }
        ensures cause { ObeyCause (S.faults screen.old) (S.faults screen.new) result }
    {
        if self.files.len() == MOST_FILES {
            return self.refuse_line(Code::TakeDepth, screen);
        }
        let Ok(file) = CommandFile::open(self.alloc, file_bytes(self.interpreter.store(), file))
        else {
            return Err(Stop::Memory);
        };
        self.files.push(file);
        self.stop = None;
        self.settle(screen)
    }

    // Begins to type a file in, unless a command file is open.
    fn begin_file<S: Sink>(&mut self, to: Place, moment: u64, screen: &mut S) -> Result<(), Stop>
        requires may_act { MayAct (Command.CopyTty to) self.old.interpreter.state }
        requires line { self.old.interpreter.typing ≡ None }
        requires free { self.old.interpreter.pending ≡ None }
        ensures obeys { Obeys (stage (S.contents screen.old) self.old) (stage (S.contents screen.new) self.new)
            (typing_effects self.old moment to) result }
        ensures later { S.faults screen.old ≤ S.faults screen.new }
        ensures cause { ObeyCause (S.faults screen.old) (S.faults screen.new) result }
    {
        if self.files.is_empty() {
            self.act(Command::CopyTty { to }, moment, screen)
        } else {
            self.refuse_line(Code::NotInTake, screen)
        }
    }

    /// Does what a line commands.
    pub fn obey_command<S: Sink>(
        &mut self,
        command: Command,
        moment: u64,
        screen: &mut S,
    ) -> Result<(), Stop>
        requires may_act { MayAct command self.old.interpreter.state }
        requires line { self.old.interpreter.typing ≡ None }
        requires free { self.old.interpreter.pending ≡ None }
        ensures obeys { Obeys (stage (S.contents screen.old) self.old) (stage (S.contents screen.new) self.new)
            (command_effects self.old moment command) result }
        ensures later { S.faults screen.old ≤ S.faults screen.new }
        ensures cause { ObeyCause (S.faults screen.old) (S.faults screen.new) result }
    {
        match command {
            Command::Take { file } => self.take(&file, screen),
            Command::CopyTty { to } => self.begin_file(to, moment, screen),
            command => self.act(command, moment, screen),
        }
    }

    // Adds a line to the command that waits for subcommands, and goes on after it.
    fn add_subcommands<S: Sink>(
        &mut self,
        pending: Pending,
        session: &Session,
        screen: &mut S,
    ) -> Result<(), Stop>
        requires may_act { MayAct pending.command self.old.interpreter.state }
        requires parse { IsParse (setting exec_graph (catalogue_of self.old.interpreter.state) exec_meanings)
            (subcommand_node pending.command) (text_of session.now) session.now.fields ending.Done }
        requires line { self.old.interpreter.typing ≡ None }
        requires free { self.old.interpreter.pending ≡ None }
        ensures obeys { (one : InterpreterState)
            → Obeys (stage (S.contents screen.old) (record self.old { interpreter = one }))
            (stage (S.contents screen.new) self.new) (pending_effects self.old session.now pending) result }
        ensures later { S.faults screen.old ≤ S.faults screen.new }
        ensures cause { ObeyCause (S.faults screen.old) (S.faults screen.new) result }
    {
        let answer = self.interpreter.add_subcommands(pending, session, screen);
        let answer = &answer;
        match outcome_of(*answer) {
            Ok(()) => self.follow(*answer, screen),
            Err(stop) => Err(stop),
        }
    }

    // Does what a line says whose parse is done.
    #[tactic(auto, using(crate::proofs::PendingCommands::main_line, crate::proofs::PendingCommands::subcommand_line))]
    pub(super) fn obey_done<S: Sink>(
        &mut self,
        session: &Session,
        moment: u64,
        screen: &mut S,
    ) -> Result<(), Stop>
        requires line { IsLineAt (mode_of self.old.interpreter) session.now.node }
        requires parse { IsParse (setting exec_graph (catalogue_of self.old.interpreter.state) exec_meanings)
            session.now.node (text_of session.now) session.now.fields ending.Done }
        ensures obeys { Obeys (stage (S.contents screen.old) self.old) (stage (S.contents screen.new) self.new)
            (line_effects self.old session.now moment) result }
        ensures later { S.faults screen.old ≤ S.faults screen.new }
        ensures cause { ObeyCause (S.faults screen.old) (S.faults screen.new) result }
    {
        match self.interpreter.take_pending() {
            Some(pending) => self.add_subcommands(pending, session, screen),
            None => {
                let command = self.interpreter.command_of(session, self.grammar.lend());
                self.obey_command(command, moment, screen)
            }
        }
    }

    // Passes the next line.
    pub(super) fn pass(&mut self)
        ensures { self.new ≡ passed self.old }
    {
        if self.files.len() > 0 {
            if let Some(mut file) = self.files.pop() {
                file.pass();
                self.files.push(file);
            }
        }
        self.taken = self.taken.saturating_add(1);
    }
}
