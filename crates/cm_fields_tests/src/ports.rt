// Fields whose bytes the rules name.

use crate::cases::{is_wanted, number, part};
use cm_hooks::{Answer, Rules, Tail, hook_field};
use cm_text::{Name, is_name};
use std::alloc::Global;
use std::process::Abort;
use std::test::Fail;

// Fields of hook 2 have points and slashes too, all others name bytes alone. Each is taken, with its number of bytes.
struct Ports;

impl Rules for Ports {
    ghost use Rattle.std.specs.Prelude.{◌==◌, [], if◌then◌else◌, length};
    ghost use Rattle.cm_hooks.specs.FieldBytes.{name_bytes};
    ghost use Rattle.cm_hooks.specs.declared.answer.Answer.TheVariants.{Yes};
    ghost use Rattle.cm_hooks.specs.declared.answer.Tail.TheVariants as tails;
    ghost use Rattle.cm_fields_tests.specs.Ports.{port_bytes};

    ghost meanings = { λ it. record {
      bytes = λ id. if id == 2 then port_bytes else name_bytes;
      names = λ id. [];
      verdict = λ id atom. Yes (length atom);
      completion = λ id atom. tails.None;
      help = λ id. [];
    } };

    fn has_byte(&self, id: u8, byte: u8) -> bool {
        if id == 2 {
            is_name(byte) || byte == b'.' || byte == b'/'
        } else {
            is_name(byte)
        }
    }

    fn names(&self, _id: u8) -> usize {
        0
    }

    fn name(&self, _id: u8, _number: usize) -> Option<Name> {
        None
    }

    fn verdict(&self, _id: u8, atom: &[u8]) -> Answer {
        Answer::Yes(atom.len() as u64)
    }

    fn completion(&self, _id: u8, _atom: &[u8]) -> Tail {
        Tail::None
    }

    fn help(&self, _id: u8) -> Name {
        Name::new("")
    }

    fn are_lawful(&self) {}
}

// What hooks make of texts: the id, the text, and the place where the field begins.
const FIELDS: &str = "\
2|eth0.100 |0|Accept { value: Hook { id: 2, value: 8 }, looked: 9, end: 8 }
2|1/2\r|0|Accept { value: Hook { id: 2, value: 3 }, looked: 4, end: 3 }
2|1/2|0|More
2|./.,|0|Accept { value: Hook { id: 2, value: 3 }, looked: 4, end: 3 }
2|eth0:1 |0|Accept { value: Hook { id: 2, value: 4 }, looked: 5, end: 4 }
2|AB 1/2 |3|Accept { value: Hook { id: 2, value: 3 }, looked: 4, end: 6 }
2| 1/2 |0|Refuse { code: NoField, looked: 1 }
2|\t|0|Refuse { code: NoField, looked: 1 }
2|?|0|Refuse { code: NoField, looked: 1 }
2|:1|0|Refuse { code: NoField, looked: 1 }
1|eth0.100 |0|Accept { value: Hook { id: 1, value: 4 }, looked: 5, end: 4 }
1|/ |0|Refuse { code: NoField, looked: 1 }";

fn judge(rt: &impl Abort, alloc: Global, case: &str) -> Result<(), Fail> {
    let id = number(rt, part(rt, case, 0)).min(255) as u8;
    let text = part(rt, case, 1).as_bytes();
    let at = usize::from(number(rt, part(rt, case, 2)));
    assert!(rt; at <= text.len() && text.len() <= 256, "{case}");
    let tried = hook_field(&Ports, id, text, at);
    is_wanted(rt, case, format!(in alloc; "{tried:?}")?.as_str());
    Ok(())
}

// [own-field]
#[test]
fn rules_say_which_bytes_a_field_has(rt: HostRuntime) -> Result<(), Fail> {
    for case in FIELDS.lines() {
        judge(&rt, rt.alloc(), case)?;
    }
    Ok(())
}
