// What mail says of its own kind of field.

use crate::message_name::MOST_MESSAGES;
use cm_fields::{are_digits, value_of};
use cm_hooks::{Answer, Rules, Tail};
use cm_text::{Name, is_name};

/// What mail says of its one kind of field, the number of a message: digits alone, of a value from 1 to 9999, which is
/// the value of the field. It is not completed.
#[derive(Clone, Copy, Debug)]
pub struct MailRules;

impl Rules for MailRules {
    ghost use Rattle.mm_mail.specs.MailRules.{mail_meanings};

    ghost meanings = { λ it. mail_meanings };

    fn has_byte(&self, _id: u8, byte: u8) -> bool {
        is_name(byte)
    }

    fn names(&self, _id: u8) -> usize {
        0
    }

    fn name(&self, _id: u8, _number: usize) -> Option<Name> {
        None
    }

    #[tactic(auto, unfolding(crate::specs::MailRules::mail_verdict))]
    fn verdict(&self, _id: u8, atom: &[u8]) -> Answer {
        if !are_digits(atom) {
            return Answer::No;
        }
        match value_of(atom, MOST_MESSAGES) {
            None | Some(0) => Answer::No,
            Some(number) => Answer::Yes(number),
        }
    }

    fn completion(&self, _id: u8, _atom: &[u8]) -> Tail {
        Tail::None
    }

    #[tactic(auto, unfolding(crate::specs::MailRules::mail_help))]
    fn help(&self, _id: u8) -> Name {
        Name::new("message number")
    }

    #[tactic(auto, using(crate::specs::MailLaws::mail_lawful))]
    fn are_lawful(&self) {}
}
