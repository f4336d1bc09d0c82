// What the console says of its own kinds of field.
ghost use Rattle.std.specs.Prelude.{◌≡◌, ◌≤◌, length};
ghost use Rattle.std.specs.Str.{IsAscii};
ghost use Rattle.cm_text.specs.declared.name.TheConstants.{NAME_LIMIT};
ghost use Rattle.eg_console.specs.Rules.{name_at, rest_by};

use cm_fields::Reason;
use cm_hooks::{Answer, Rules, Tail, verdict_among};
use cm_net::Ipv4Prefix;
use cm_text::{Name, is_name};

// The interfaces, in the order of their numbers.
const NAMES: [&str; 4] = ["eth0", "eth0.100", "eth1", "wlan0"];

/// The names of interfaces, which may be abbreviated, are completed and are listed, and addresses, which are refused
/// where they are typed.
#[derive(Clone, Copy, Debug)]
pub struct ConsoleRules;

impl Rules for ConsoleRules {
    ghost use Rattle.eg_console.specs.Rules.{console_meanings};

    ghost meanings = { λ it. console_meanings };

    fn has_byte(&self, _id: u8, byte: u8) -> bool {
        is_name(byte) || byte == b'.' || byte == b'/'
    }

    fn names(&self, id: u8) -> usize {
        if id == 0 { NAMES.len() } else { 0 }
    }

    #[tactic(auto, using(crate::proofs::Names::listed, crate::proofs::Names::past))]
    fn name(&self, id: u8, number: usize) -> Option<Name> {
        if id == 0 && number < 4 {
            return Some(Name::new(name_at(number as u64)));
        }
        None
    }

    #[tactic(auto, unfolding(crate::specs::Rules::no_address, cm_fields::specs::Reason::is_reason, cm_fields::specs::Reason::is_reason_text))]
    fn verdict(&self, id: u8, atom: &[u8]) -> Answer {
        if id == 0 {
            return verdict_among(&NAMES, atom);
        }
        if Ipv4Prefix::parse(atom).is_some() {
            return Answer::Yes(0);
        }
        Answer::NoBecause(Reason::of(128, "Not an address, a slash and a length"))
    }

    fn completion(&self, id: u8, atom: &[u8]) -> Tail {
        if id == 0 {
            return rest_by(verdict_among(&NAMES, atom), atom.len());
        }
        Tail::None
    }

    fn help(&self, id: u8) -> Name {
        Name::new(if id == 0 {
            "interface"
        } else {
            "address and length, as 10.0.0.1/8"
        })
    }

    #[tactic(auto, using(crate::proofs::Names::console_lawful))]
    fn are_lawful(&self) {}
}

// The name with a number.
pub(crate) fn name_at(number: u64) -> &'static str
    ensures value { result.now ≡ name_at number }
    ensures short { length result.now ≤ NAME_LIMIT }
    ensures ascii { IsAscii result.now }
{
    let [first, second, third, last] = NAMES;
    match number {
        0 => first,
        1 => second,
        2 => third,
        _ => last,
    }
}

// How an atom of this size goes on to the name that it stands for.
fn rest_by(answer: Answer, size: usize) -> Tail
    ensures { result ≡ rest_by answer size }
{
    let Answer::Yes(number) = answer else {
        return Tail::None;
    };
    let name = name_at(number);
    if name.len() < size {
        return Tail::None;
    }
    Tail::Whole(Name::new(&name[size..]))
}
