// Mail in its course.
#![tactic(auto)]

ghost use Rattle.std.specs.Prelude.{◌≡◌, ◌≤◌, true, None, Some, OnErr, OnOk, ◌∷◌, []};
ghost use Rattle.cm_blocks.specs.Parse.{IsParse};
ghost use Rattle.cm_blocks.specs.Setting.{setting};
ghost use Rattle.cm_blocks.specs.declared.field.Ending.TheVariants as ending;
ghost use Rattle.cm_io.specs.Fault.{PutCause};
ghost use Rattle.cm_io.specs.Contents.{Adds};
ghost use Rattle.cm_run.specs.Cause.{ObeyCause};
ghost use Rattle.cm_run.specs.Semantics.{IsModeOf};
ghost use Rattle.cm_run.specs.Obey.{Obeys, stage};
ghost use Rattle.cm_state.specs.SessionState.{text_of};
ghost use Rattle.ex_store.specs.State.{catalogue_of, has_directory};
ghost use Rattle.mm_mail.specs.Command.{MayAct, command_of};
ghost use Rattle.mm_mail.specs.Graph.{mail_graph};
ghost use Rattle.mm_mail.specs.MailRules.{mail_meanings};
ghost use Rattle.mm_mail.specs.MailState.{mail_start};
ghost use Rattle.mm_mail.specs.Semantics.{allocates, becomes, echo_by, effect_of, mode_of, raw_by, sent};
ghost use Rattle.mm_mail.specs.declared.grammar.TheConstants.{COMMANDS};

use crate::acts::act;
use crate::command::{Command, command_of};
use crate::delivery::send;
use crate::grammar::{COMMANDS, MailGrammar};
use crate::laws::a_line_may_act;
use crate::message::Message;
use cm_blocks::Grammar;
use cm_io::{NoMemory, Put, Sink};
use cm_run::{Mode, Own, Stop};
use cm_state::{Prompt, Session};
use cm_text::Name;
use ex_commands::{Data, DataTurn};
use ex_store::Store;
use std::alloc::Global;
use std::marker::Model;

/// Mail in its course: directories and files, the message that is being typed in, and whether QUIT has acted. The
/// reader and sender is the connected directory. Contracts see these, with the state of the file machine in place of
/// the store.
#[derive(Drop)]
pub struct Mail {
    alloc: Global,
    grammar: Own<MailGrammar>,
    store: Store,
    writing: Option<Message>,
    has_ended: bool,
}

impl Model for Mail {
    ghost use Rattle.std.specs.Option.{ForSome};
    ghost use Rattle.std.specs.Prelude.{◌≡◌, true};
    ghost use Rattle.ex_store.specs.State.{has_directory};
    ghost use Rattle.mm_mail.specs.MailState.{MailState};

    ghost Value = { MailState };

    ghost view = { λ it. record {
      state = it.store.state;
      writing = it.writing;
      ended = it.has_ended;
    } };

    ghost invariant = { λ it. ForSome it.writing (λ message.
        has_directory message.receiver it.store.state.directories ≡ true) };
}

impl Mail {
    /// Mail with its grammar, over a store, at a line. The memory for messages that are typed in is `alloc`.
    pub fn new(alloc: Global, grammar: Own<MailGrammar>, store: Store) -> Mail
        ensures { result ≡ mail_start store.state }
    {
        Mail {
            alloc,
            grammar,
            store,
            writing: None,
            has_ended: false,
        }
    }

    /// Its directories and files.
    pub fn store(&self) -> &Store
        ensures { result.now.state ≡ self.now.state }
    {
        &self.store
    }

    /// Whether QUIT has acted.
    pub fn has_ended(&self) -> bool
        ensures { result ≡ self.now.ended }
    {
        self.has_ended
    }

    // What a line is parsed under.
    pub(crate) fn grammar(&self) -> &Grammar
        ensures { result.now ≡ mail_graph }
    {
        self.grammar.lend()
    }

    // What a confirmed line commands.
    pub(crate) fn command_of(&self, session: &Session) -> Command
        requires { IsParse (setting mail_graph (catalogue_of self.now.state) mail_meanings) COMMANDS
            (text_of session.now) session.now.fields ending.Done }
        ensures command { result ≡ command_of (catalogue_of self.now.state) session.now }
        ensures may_act { MayAct result self.now.state }
    {
        // That what such a line commands may be done, for the proof.
        a_line_may_act();
        command_of(session, &self.store)
    }

    // Begins to type a message in.
    fn begin_message(
        &mut self,
        receiver: &Name,
        subject: &Name,
        moment: u64,
    ) -> Result<(), NoMemory>
        requires { has_directory receiver.now self.old.state.directories ≡ true }
        ensures ready { OnOk result (self.new
            ≡ becomes self.old moment (Command.Send receiver.now subject.now)) }
        ensures same { OnErr result (self.new ≡ self.old) }
    {
        let typed = Data::new(self.alloc)?;
        self.writing = Some(Message {
            receiver: Name::new(receiver.as_str()),
            subject: Name::new(subject.as_str()),
            moment,
            typed,
        });
        Ok(())
    }

    // Becomes what mail is after a command.
    fn prepare(&mut self, command: &Command, moment: u64) -> Result<(), NoMemory>
        requires { MayAct command.now self.old.state }
        ensures ready { OnOk result (self.new ≡ becomes self.old moment command.now) }
        ensures same { OnErr result (self.new ≡ self.old) }
        ensures wanting { OnErr result (allocates command.now ≡ true) }
    {
        match command {
            Command::Quit => {
                self.has_ended = true;
                Ok(())
            }
            Command::Send { receiver, subject } => self.begin_message(receiver, subject, moment),
            _ => Ok(()),
        }
    }

    // Does what a line commands.
    #[tactic(auto, using(cm_run::proofs::Acts::obeys_done, cm_run::proofs::Acts::obeys_cut, cm_run::proofs::Acts::obeys_wanting), unfolding(cm_run::specs::Cause::ObeyCause))]
    pub(crate) fn obey<S: Sink>(
        &mut self,
        command: &Command,
        moment: u64,
        screen: &mut S,
    ) -> Result<(), Stop>
        requires may_act { MayAct command.now self.old.state }
        requires line { self.old.writing ≡ None }
        ensures obeys { Obeys (stage (S.contents screen.old) self.old) (stage (S.contents screen.new) self.new)
            (effect_of self.old moment command.now ∷ []) result }
        ensures later { S.faults screen.old ≤ S.faults screen.new }
        ensures cause { ObeyCause (S.faults screen.old) (S.faults screen.new) result }
    {
        let Ok(()) = self.prepare(command, moment) else {
            return Err(Stop::Memory);
        };
        match act(&mut self.store, command, screen) {
            Put::Done => Ok(()),
            Put::Failed => Err(Stop::Screen),
        }
    }

    // Sends a message that was typed in.
    #[tactic(auto, using(cm_run::proofs::Acts::obeys_done, cm_run::proofs::Acts::obeys_cut, cm_run::proofs::Acts::obeys_wanting), unfolding(cm_run::specs::Cause::ObeyCause))]
    fn send<S: Sink>(&mut self, message: &Message, screen: &mut S) -> Result<(), Stop>
        requires there { has_directory message.now.receiver self.old.state.directories ≡ true }
        requires over { self.old.writing ≡ None }
        ensures obeys { Obeys (stage (S.contents screen.old) self.old) (stage (S.contents screen.new) self.new)
            (sent self.old message.now ∷ []) result }
        ensures later { S.faults screen.old ≤ S.faults screen.new }
        ensures cause { ObeyCause (S.faults screen.old) (S.faults screen.new) result }
    {
        match send(self.alloc, &mut self.store, message, screen) {
            Ok(Put::Done) => Ok(()),
            Ok(Put::Failed) => Err(Stop::Screen),
            Err(NoMemory) => Err(Stop::Memory),
        }
    }

    // What the next key is for.
    #[tactic(auto, using(crate::proofs::Faultless::graph_nodes))]
    pub(crate) fn mode(&self) -> Mode
        ensures mode { result ≡ mode_of self.now }
        ensures node { IsModeOf mail_graph result }
    {
        if self.has_ended {
            return Mode::Ended;
        }
        match &self.writing {
            Some(_) => Mode::Raw,
            None => Mode::Line {
                node: COMMANDS,
                prompt: Prompt::Main,
                takes_moment: true,
            },
        }
    }

    // Shows what a key of a message that is typed in does, and does nothing yet.
    #[tactic(auto, using(cm_io::proofs::Additions::add_none))]
    pub(crate) fn echo_raw<S: Sink>(&self, key: u8, screen: &mut S) -> Put
        ensures bytes { Adds (S.contents screen.old) (S.contents screen.new) (echo_by key self.now.writing) result }
        ensures later { S.faults screen.old ≤ S.faults screen.new }
        ensures cause { PutCause (S.faults screen.old) (S.faults screen.new) result }
    {
        match &self.writing {
            Some(message) => message.typed.echo(key, screen),
            None => Put::Done,
        }
    }

    // Takes a key of a message that is typed in.
    #[tactic(auto, using(cm_run::proofs::Acts::obeys_nothing), unfolding(cm_run::specs::Cause::ObeyCause, crate::specs::Semantics::typed_effects))]
    pub(crate) fn obey_raw<S: Sink>(&mut self, key: u8, screen: &mut S) -> Result<(), Stop>
        // [message]
        ensures obeys { Obeys (stage (S.contents screen.old) self.old) (stage (S.contents screen.new) self.new)
            (raw_by self.old key self.old.writing) result }
        ensures later { S.faults screen.old ≤ S.faults screen.new }
        ensures cause { ObeyCause (S.faults screen.old) (S.faults screen.new) result }
    {
        let Some(mut message) = self.writing.take() else {
            return Ok(());
        };
        match message.typed.take(key) {
            DataTurn::More => {
                self.writing = Some(message);
                Ok(())
            }
            DataTurn::Write => self.send(&message, screen),
            DataTurn::Dropped => Ok(()),
        }
    }
}
