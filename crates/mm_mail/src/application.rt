// Mail, as the engine runs it.

use crate::mail::Mail;
use crate::rules::MailRules;
use cm_blocks::Grammar;
use cm_io::{Put, Sink};
use cm_run::{Application, Mode, Stop};
use cm_state::Session;
use ex_store::Store;

impl Application for Mail {
    ghost use Rattle.mm_mail.specs.Semantics.{mail_semantics};

    type Rules = MailRules;

    type Names = Store;

    ghost means = { mail_semantics };

    fn grammar(&self) -> &Grammar {
        self.grammar()
    }

    fn names(&self) -> &Store {
        self.store()
    }

    fn rules(&self) -> &MailRules {
        &MailRules
    }

    fn mode(&self) -> Mode {
        self.mode()
    }

    fn obey_line<S: Sink>(
        &mut self,
        session: &Session,
        moment: u64,
        screen: &mut S,
    ) -> Result<(), Stop> {
        let command = self.command_of(session);
        self.obey(&command, moment, screen)
    }

    fn refuse(&mut self) {}

    fn abandon(&mut self) {}

    fn echo_raw<S: Sink>(&self, key: u8, screen: &mut S) -> Put {
        self.echo_raw(key, screen)
    }

    fn obey_raw<S: Sink>(&mut self, key: u8, screen: &mut S) -> Result<(), Stop> {
        self.obey_raw(key, screen)
    }

    fn file_line(&self) -> Option<&[u8]> {
        None
    }

    #[tactic(auto, using(cm_run::proofs::Acts::obeys_nothing), unfolding(cm_run::specs::Cause::ObeyCause))]
    fn obey_file_line<S: Sink>(
        &mut self,
        _session: &Session,
        _moment: u64,
        _screen: &mut S,
    ) -> Result<(), Stop> {
        Ok(())
    }
}
