// The EXEC in its course.
#![tactic(auto)]

ghost use Rattle.std.specs.Prelude.{◌≡◌, ◌≤◌, true, false, None, Some, Ok, [], ◌∷◌, OnErr, OnOk};
ghost use Rattle.std.specs.Option.{ForSome, option_copied};
ghost use Rattle.cm_blocks.specs.Parse.{IsParse};
ghost use Rattle.cm_blocks.specs.Setting.{setting};
ghost use Rattle.cm_blocks.specs.declared.field.Ending.TheVariants as ending;
ghost use Rattle.cm_io.specs.Fault.{PutCause};
ghost use Rattle.cm_io.specs.Contents.{Adds};
ghost use Rattle.cm_run.specs.Cause.{ObeyCause};
ghost use Rattle.cm_run.specs.Semantics.{IsModeOf};
ghost use Rattle.cm_run.specs.Obey.{Obeys, stage};
ghost use Rattle.cm_state.specs.SessionState.{text_of};
ghost use Rattle.ex_commands.specs.Act.{act_of, begins, writes};
ghost use Rattle.ex_commands.specs.Answer.{MayAct};
ghost use Rattle.ex_commands.specs.Command.{is_pending, subcommand_node};
ghost use Rattle.ex_store.specs.Plan.{IsTarget};
ghost use Rattle.ex_grammar.specs.ExecRules.{exec_meanings};
ghost use Rattle.ex_grammar.specs.Graph.{exec_graph};
ghost use Rattle.ex_grammar.specs.declared.node.TheConstants.{COMMANDS};
ghost use Rattle.ex_store.specs.State.{catalogue_of};
ghost use Rattle.ex_take.specs.Interpreter.{allocates, becomes, command_at, completion_answer, echo_by, effect_of, is_free, line_mode, mode_of, pending_complete, pending_with, raw_answer, raw_by, subcommand_effects, written};
ghost use Rattle.ex_take.specs.InterpreterState.{InterpreterState, interpreter_start};
ghost use Rattle.ex_take.specs.Outcome.{lacks_memory, outcome_of};

use crate::{Pending, Typing};
use cm_blocks::Grammar;
use cm_files::Names;
use cm_io::{NoMemory, Put, Sink};
use cm_run::{Mode, Stop};
use cm_state::{Prompt, Session};
use ex_commands::laws::{a_line_may_act, a_subcommand_may_act};
use ex_commands::{Acted, Command, Data, DataTurn, act, write_data};
use ex_grammar::COMMANDS;
use ex_store::{Place, Store};
use std::alloc::Global;
use std::marker::Model;

/// The EXEC in its course: directories and files, the command that waits for its subcommands, the file that is being
/// typed in, and whether LOGOUT has acted.
/// Contracts see these, with the state of the file machine in place of the store.
#[derive(Drop)]
pub struct Interpreter {
    alloc: Global,
    store: Store,
    pending: Option<Pending>,
    typing: Option<Typing>,
    has_ended: bool,
}

impl Model for Interpreter {
    ghost use Rattle.std.specs.Option.{ForSome};
    ghost use Rattle.std.specs.Prelude.{◌≡◌, None};
    ghost use Rattle.ex_store.specs.Plan.{IsTarget};
    ghost use Rattle.ex_commands.specs.Answer.{MayAct};
    ghost use Rattle.ex_take.specs.InterpreterState.{InterpreterState};

    ghost Value = { InterpreterState };

    ghost view = { λ it. record {
      state = it.store.state;
      pending = it.pending;
      typing = it.typing;
      ended = it.has_ended;
    } };

    ghost invariant = { λ it. ForSome it.typing (λ typing. IsTarget typing.to it.store.state.directories)
        × (ForSome it.pending (λ pending. MayAct pending.command it.store.state)
        × ForSome it.typing (λ typing. it.pending ≡ None)) };
}

impl Interpreter {
    /// The EXEC over a store, at a line. The memory for files that are typed in is `alloc`.
    pub fn new(alloc: Global, store: Store) -> Interpreter
        ensures { result ≡ interpreter_start store.state }
    {
        Interpreter {
            alloc,
            store,
            pending: None,
            typing: None,
            has_ended: false,
        }
    }

    /// Its directories and files.
    pub fn store(&self) -> &Store
        ensures { result.now.state ≡ self.now.state }
    {
        &self.store
    }

    /// Whether LOGOUT has acted.
    pub fn has_ended(&self) -> bool
        ensures { result ≡ self.now.ended }
    {
        self.has_ended
    }

    /// What a confirmed line commands.
    pub fn command_of(&self, session: &Session, grammar: &Grammar) -> Command
        requires grammar { grammar.now ≡ exec_graph }
        requires parse { IsParse (setting exec_graph (catalogue_of self.now.state) exec_meanings) COMMANDS
            (text_of session.now) session.now.fields ending.Done }
        ensures command { result ≡ command_at self.now session.now }
        ensures may_act { MayAct result self.now.state }
    {
        // That of a line, that of a catalogue, and that what such a line commands may be done, for the proof.
        let _ = session.text();
        let _ = self.store.directories();
        a_line_may_act();
        Command::of(session, grammar, &self.store)
    }

    // Begins to type a file in, if it has a name.
    fn begin_typing(&mut self, to: &Place, moment: u64) -> Result<(), NoMemory>
        requires target { IsTarget to.now self.old.state.directories }
        requires free { self.old.pending ≡ None }
        ensures ready { OnOk result (self.new
            ≡ becomes self.old moment (Command.CopyTty to.now) (begins to.now self.old.state).answer) }
        ensures same { OnErr result (self.new ≡ self.old) }
    {
        if to.lacks_name() {
            return Ok(());
        }
        let typed = Data::new(self.alloc)?;
        self.typing = Some(Typing {
            to: to.copy(),
            moment,
            typed,
        });
        Ok(())
    }

    // Becomes what the EXEC is by the reply of a command.
    fn prepare(&mut self, command: &Command, moment: u64) -> Result<(), NoMemory>
        requires may_act { MayAct command.now self.old.state }
        requires acts { is_pending command.now ≡ false }
        requires free { self.old.pending ≡ None }
        ensures ready { OnOk result (self.new
            ≡ becomes self.old moment command.now (act_of command.now moment self.old.state).answer) }
        ensures same { OnErr result (self.new ≡ self.old) }
        ensures wanting { OnErr result (allocates command.now ≡ true) }
    {
        match command {
            Command::Logout => {
                self.has_ended = true;
                Ok(())
            }
            Command::CopyTty { to } => self.begin_typing(to, moment),
            _ => Ok(()),
        }
    }

    // Writes a file that was typed in, and is typed in no more.
    fn write<S: Sink>(&mut self, typing: Typing, screen: &mut S) -> Acted
        requires target { IsTarget typing.to self.old.state.directories }
        requires over { self.old.typing ≡ None }
        requires free { self.old.pending ≡ None }
        ensures obeys { Obeys (stage (S.contents screen.old) self.old) (stage (S.contents screen.new) self.new)
            (written self.old typing ∷ []) (outcome_of result) }
        ensures answer { outcome_of result ≡ Ok tt
            → result ≡ (writes typing.to typing.typed typing.moment self.old.state).answer }
        ensures later { S.faults screen.old ≤ S.faults screen.new }
        ensures cause { ObeyCause (S.faults screen.old) (S.faults screen.new) (outcome_of result) }
    {
        let Typing { to, moment, typed } = typing;
        write_data(&mut self.store, &to, typed, moment, screen)
    }

    // Does a command that waits for no subcommands.
    fn do_command<S: Sink>(&mut self, command: &Command, moment: u64, screen: &mut S) -> Acted
        requires may_act { MayAct command.now self.old.state }
        requires acts { is_pending command.now ≡ false }
        requires line { self.old.typing ≡ None }
        requires free { self.old.pending ≡ None }
        ensures obeys { Obeys (stage (S.contents screen.old) self.old) (stage (S.contents screen.new) self.new)
            (effect_of self.old moment command.now ∷ []) (outcome_of result) }
        ensures answer { outcome_of result ≡ Ok tt → result ≡ (act_of command.now moment self.old.state).answer }
        ensures later { S.faults screen.old ≤ S.faults screen.new }
        ensures cause { ObeyCause (S.faults screen.old) (S.faults screen.new) (outcome_of result) }
    {
        let Ok(()) = self.prepare(command, moment) else {
            return Acted::NoMemory;
        };
        act(&mut self.store, command, moment, screen)
    }

    /// Does what a main line commands, or waits for its subcommands.
    pub fn obey<S: Sink>(&mut self, command: Command, moment: u64, screen: &mut S) -> Acted
        requires may_act { MayAct command self.old.state }
        requires line { self.old.typing ≡ None }
        requires free { self.old.pending ≡ None }
        ensures obeys { Obeys (stage (S.contents screen.old) self.old) (stage (S.contents screen.new) self.new)
            (effect_of self.old moment command ∷ []) (outcome_of result) }
        ensures answer { outcome_of result ≡ Ok tt → result ≡ (act_of command moment self.old.state).answer }
        ensures later { S.faults screen.old ≤ S.faults screen.new }
        ensures cause { ObeyCause (S.faults screen.old) (S.faults screen.new) (outcome_of result) }
    {
        if command.is_pending() {
            self.pending = Some(Pending { command, moment });
            return Acted::Pending;
        }
        self.do_command(&command, moment, screen)
    }

    // Does a command after its last subcommand, or has it wait on where memory runs out.
    fn complete<S: Sink>(&mut self, pending: Pending, screen: &mut S) -> Acted
        requires may_act { MayAct pending.command self.old.state }
        requires acts { is_pending pending.command ≡ false }
        requires line { self.old.typing ≡ None }
        requires free { self.old.pending ≡ None }
        ensures obeys { Obeys (stage (S.contents screen.old) (record self.old { pending = Some pending }))
            (stage (S.contents screen.new) self.new) (effect_of self.old pending.moment pending.command ∷ [])
            (outcome_of result) }
        ensures answer { outcome_of result ≡ Ok tt
            → result ≡ (act_of pending.command pending.moment self.old.state).answer }
        ensures later { S.faults screen.old ≤ S.faults screen.new }
        ensures cause { ObeyCause (S.faults screen.old) (S.faults screen.new) (outcome_of result) }
    {
        let answer = self.do_command(&pending.command, pending.moment, screen);
        let answer = &answer;
        if lacks_memory(*answer) {
            self.pending = Some(pending);
            return *answer;
        }
        *answer
    }

    // Does a command to which a line of subcommands was added, unless it waits on.
    fn go_on<S: Sink>(&mut self, pending: Pending, screen: &mut S) -> Acted
        requires may_act { MayAct pending.command self.old.state }
        requires line { self.old.typing ≡ None }
        requires free { self.old.pending ≡ None }
        ensures obeys { (before : InterpreterState) → Obeys (stage (S.contents screen.old) before)
            (stage (S.contents screen.new) self.new) (subcommand_effects self.old pending) (outcome_of result) }
        ensures answer { outcome_of result ≡ Ok tt → result ≡ completion_answer self.old pending }
        ensures later { S.faults screen.old ≤ S.faults screen.new }
        ensures cause { ObeyCause (S.faults screen.old) (S.faults screen.new) (outcome_of result) }
    {
        if pending.command.is_pending() {
            self.pending = Some(pending);
            return Acted::Pending;
        }
        self.complete(pending, screen)
    }

    /// The command that waits for its subcommands, which waits no more then.
    pub fn take_pending(&mut self) -> Option<Pending>
        ensures pending { result ≡ self.old.pending }
        ensures rest { self.new ≡ record self.old { pending = None } }
        ensures may_act { ForSome result (λ pending. MayAct pending.command self.old.state) }
        ensures line { ForSome result (λ pending. self.old.typing ≡ None) }
    {
        self.pending.take()
    }

    /// Adds a line of subcommands to a command that waited; after an empty one it acts.
    pub fn add_subcommands<S: Sink>(
        &mut self,
        mut pending: Pending,
        session: &Session,
        screen: &mut S,
    ) -> Acted
        requires may_act { MayAct pending.command self.old.state }
        requires parse { IsParse (setting exec_graph (catalogue_of self.old.state) exec_meanings)
            (subcommand_node pending.command) (text_of session.now) session.now.fields ending.Done }
        requires line { self.old.typing ≡ None }
        requires free { self.old.pending ≡ None }
        ensures obeys { (before : InterpreterState) → Obeys (stage (S.contents screen.old) before)
            (stage (S.contents screen.new) self.new) (subcommand_effects self.old (pending_with session.now pending))
            (outcome_of result) }
        ensures answer { outcome_of result ≡ Ok tt
            → result ≡ completion_answer self.old (pending_with session.now pending) }
        ensures later { S.faults screen.old ≤ S.faults screen.new }
        ensures cause { ObeyCause (S.faults screen.old) (S.faults screen.new) (outcome_of result) }
    {
        a_subcommand_may_act();
        pending.command.add_sub(session);
        self.go_on(pending, screen)
    }

    /// Ends the subcommands of a command that waited, as an empty line of them does: it acts.
    #[tactic(auto, using(ex_commands::proofs::Subcommands::complete_may))]
    pub fn end_subcommands<S: Sink>(&mut self, mut pending: Pending, screen: &mut S) -> Acted
        requires may_act { MayAct pending.command self.old.state }
        requires line { self.old.typing ≡ None }
        requires free { self.old.pending ≡ None }
        ensures obeys { (before : InterpreterState) → Obeys (stage (S.contents screen.old) before)
            (stage (S.contents screen.new) self.new) (subcommand_effects self.old (pending_complete pending))
            (outcome_of result) }
        ensures answer { outcome_of result ≡ Ok tt
            → result ≡ completion_answer self.old (pending_complete pending) }
        ensures later { S.faults screen.old ≤ S.faults screen.new }
        ensures cause { ObeyCause (S.faults screen.old) (S.faults screen.new) (outcome_of result) }
    {
        pending.command.complete();
        self.go_on(pending, screen)
    }

    /// What the next key is for.
    pub fn mode(&self) -> Mode
        ensures mode { result ≡ mode_of self.now }
        ensures node { IsModeOf exec_graph result }
    {
        if self.has_ended {
            return Mode::Ended;
        }
        match &self.typing {
            Some(_) => Mode::Raw,
            None => line_mode(self.pending.as_ref()),
        }
    }

    /// Whether no command waits for its subcommands, and no file is typed in.
    pub fn is_free(&self) -> bool
        ensures { result ≡ is_free self.now }
    {
        self.pending.is_none() && self.typing.is_none()
    }

    /// Drops the command that waits for its subcommands, and the file that is typed in.
    pub fn rest(&mut self)
        ensures { self.new ≡ record self.old { pending = None; typing = None } }
    {
        self.abandon();
        self.typing = None;
    }

    /// Drops the command that waits for its subcommands.
    pub fn abandon(&mut self)
        ensures { self.new ≡ record self.old { pending = None } }
    {
        self.pending = None;
    }

    /// Shows what a key of a file that is typed in does, and does nothing yet.
    #[tactic(auto, using(cm_io::proofs::Additions::add_none))]
    pub fn echo_raw<S: Sink>(&self, key: u8, screen: &mut S) -> Put
        ensures bytes { Adds (S.contents screen.old) (S.contents screen.new) (echo_by key self.now.typing) result }
        ensures later { S.faults screen.old ≤ S.faults screen.new }
        ensures cause { PutCause (S.faults screen.old) (S.faults screen.new) result }
    {
        match &self.typing {
            Some(typing) => typing.typed.echo(key, screen),
            None => Put::Done,
        }
    }

    /// Takes a key of a file that is typed in.
    #[tactic(auto, using(cm_run::proofs::Acts::obeys_nothing, crate::proofs::CommandAnswers::obeys_silent), unfolding(cm_run::specs::Cause::ObeyCause, crate::specs::Interpreter::typed_effects))]
    pub fn obey_raw<S: Sink>(&mut self, key: u8, screen: &mut S) -> Acted
        ensures obeys { Obeys (stage (S.contents screen.old) self.old) (stage (S.contents screen.new) self.new)
            (raw_by self.old key self.old.typing) (outcome_of result) }
        ensures answer { outcome_of result ≡ Ok tt → result ≡ raw_answer self.old key self.old.typing }
        ensures later { S.faults screen.old ≤ S.faults screen.new }
        ensures cause { ObeyCause (S.faults screen.old) (S.faults screen.new) (outcome_of result) }
    {
        let Some(mut typing) = self.typing.take() else {
            return Acted::Ok;
        };
        match typing.typed.take(key) {
            DataTurn::More => {
                self.typing = Some(typing);
                Acted::Ok
            }
            DataTurn::Write => self.write(typing, screen),
            DataTurn::Dropped => Acted::Ok,
        }
    }
}

// Whether memory ran out.
fn lacks_memory(answer: Acted) -> bool
    ensures { result ≡ lacks_memory (outcome_of answer) }
{
    matches!(answer, Acted::NoMemory)
}

// A line is of subcommands where a command waits for them.
#[tactic(auto, using(ex_grammar::proofs::Faultless::graph_nodes))]
fn line_mode(pending: Option<&Pending>) -> Mode
    ensures mode { result ≡ line_mode (option_copied pending.entry) }
    ensures node { IsModeOf exec_graph result }
{
    match pending {
        Some(pending) => Mode::Line {
            node: pending.command.subcommand_node(),
            prompt: Prompt::Sub,
            takes_moment: false,
        },
        None => Mode::Line {
            node: COMMANDS,
            prompt: Prompt::Main,
            takes_moment: true,
        },
    }
}

/// What came of a command, as the engine is told it.
pub fn outcome_of(acted: Acted) -> Result<(), Stop>
    ensures { result ≡ outcome_of acted }
{
    match acted {
        Acted::Ok => Ok(()),
        Acted::Refused(_) => Ok(()),
        Acted::Pending => Ok(()),
        Acted::Data => Ok(()),
        Acted::Take => Ok(()),
        Acted::Logout => Ok(()),
        Acted::NoMemory => Err(Stop::Memory),
        Acted::Failed => Err(Stop::Screen),
    }
}
