// What the EXEC says of its own kinds of field.
ghost use Rattle.std.specs.Prelude.{◌≡◌};
ghost use Rattle.ex_grammar.specs.ExecRules.{logical_verdict};

use crate::retention::retention_verdict;
use cm_files::is_logical_name;
use cm_hooks::{Answer, Rules, Tail, completion_among, verdict_among};
use cm_text::{Name, is_name};

// The names of forms, in the order of their numbers.
const FORM_NAMES: [&str; 3] = ["NARROW", "NORMAL", "WIDE"];

/// What the EXEC says of its own kinds of field: 0 is a logical name, of which the value is the number of its bytes;
/// 1 the name of a form, NARROW (0), NORMAL (1) or WIDE (2), or what abbreviates it alone; any other a retention count
/// from 0 to 63. Letters have no case. The name of a form alone is completed.
#[derive(Clone, Copy, Debug)]
pub struct ExecRules;

impl Rules for ExecRules {
    ghost use Rattle.ex_grammar.specs.ExecRules.{exec_meanings};

    ghost meanings = { λ it. exec_meanings };

    fn has_byte(&self, _id: u8, byte: u8) -> bool {
        is_name(byte)
    }

    fn names(&self, _id: u8) -> usize {
        0
    }

    fn name(&self, _id: u8, _number: usize) -> Option<Name> {
        None
    }

    fn verdict(&self, id: u8, atom: &[u8]) -> Answer {
        match id {
            0 => logical_verdict(atom),
            1 => verdict_among(&FORM_NAMES, atom),
            _ => retention_verdict(atom),
        }
    }

    #[tactic(auto, unfolding(cm_text::specs::Bytes::is_name, cm_text::specs::Bytes::is_word))]
    fn completion(&self, id: u8, atom: &[u8]) -> Tail {
        match id {
            1 => completion_among(&FORM_NAMES, atom),
            _ => Tail::None,
        }
    }

    #[tactic(auto, unfolding(crate::specs::ExecRules::rule_help))]
    fn help(&self, id: u8) -> Name {
        Name::new(match id {
            0 => "logical name",
            1 => "form name",
            _ => "number from 0 to 63",
        })
    }

    #[tactic(auto, using(crate::specs::ExecLaws::exec_lawful))]
    fn are_lawful(&self) {}
}

// Whether an atom is a logical name.
fn logical_verdict(atom: &[u8]) -> Answer
    ensures { result ≡ logical_verdict atom.now }
{
    if is_logical_name(atom) {
        Answer::Yes(atom.len() as u64)
    } else {
        Answer::No
    }
}
