// The rules of the tests.
ghost use Rattle.std.specs.Prelude.{◌≡◌};
ghost use Rattle.cm_state_tests.specs.Judges.{completion, help, is_port, long_name, name_of, name_taken, port, verdict};

use cm_fields::Reason;
use cm_files::is_logical_name;
use cm_hooks::{Answer, Rules, Tail};
use cm_text::{Name, is_name};

pub(crate) struct Judges;

impl Rules for Judges {
    ghost use Rattle.cm_state_tests.specs.Judges.{bytes, completion, help, names, verdict};

    ghost meanings = { λ it. record {
      bytes = bytes;
      names = names;
      verdict = verdict;
      completion = λ id atom. completion id;
      help = help;
    } };

    fn has_byte(&self, id: u8, byte: u8) -> bool {
        if id == 4 {
            is_port(byte)
        } else {
            is_name(byte)
        }
    }

    fn names(&self, id: u8) -> usize {
        match id {
            4 => 3,
            5 => 61,
            6 => 4,
            _ => 0,
        }
    }

    #[tactic(auto, using(crate::specs::JudgeLaws::name_at, crate::specs::JudgeLaws::name_past))]
    fn name(&self, id: u8, number: usize) -> Option<Name> {
        if number >= self.names(id) {
            return None;
        }
        Some(name_of(id, number))
    }

    fn verdict(&self, id: u8, atom: &[u8]) -> Answer {
        verdict(id, atom)
    }

    fn completion(&self, id: u8, _atom: &[u8]) -> Tail {
        completion(id)
    }

    fn help(&self, id: u8) -> Name {
        help(id)
    }

    #[tactic(auto, using(crate::specs::JudgeLaws::judges_lawful))]
    fn are_lawful(&self) {}
}

#[tactic(auto, unfolding(cm_fields::specs::Reason::is_reason, cm_fields::specs::Reason::is_reason_text))]
fn name_taken() -> Reason
    ensures { result ≡ name_taken }
{
    Reason::of(150, "Name is taken")
}

fn verdict(id: u8, atom: &[u8]) -> Answer
    ensures { result ≡ verdict id atom.now }
{
    if id == 0 {
        if is_logical_name(atom) {
            Answer::Yes(atom.len() as u64)
        } else if atom.len() == 3 {
            Answer::NoBecause(name_taken())
        } else {
            Answer::No
        }
    } else if id == 3 {
        Answer::Yes(u64::MAX)
    } else if atom.len() == 3 {
        Answer::No
    } else {
        Answer::Yes(atom.len() as u64)
    }
}

fn completion(id: u8) -> Tail
    ensures { result ≡ completion id }
{
    match id {
        1 => Tail::Part(Name::new("Z")),
        4 => Tail::Part(Name::new(".100")),
        _ => Tail::None,
    }
}

fn help(id: u8) -> Name
    ensures { result ≡ help id }
{
    Name::new(match id {
        3 => "lamp",
        4 => "port",
        _ => "",
    })
}

// Whether a byte may be in the name of a port.
fn is_port(byte: u8) -> bool
    ensures { result ≡ is_port byte }
{
    is_name(byte) || byte == b'.' || byte == b'/'
}

fn port(number: usize) -> Name
    ensures { result ≡ port number }
{
    Name::new(match number {
        0 => "eth0",
        1 => "eth0.100",
        _ => "1/2",
    })
}

// Two of 37 bytes, of which two columns fit into a row, and two of 38.
fn long_name(number: usize) -> Name
    ensures { result ≡ long_name number }
{
    Name::new(match number {
        0 => "a234567890123456789012345678901234567",
        1 => "a234567890123456789012345678901234568",
        2 => "b2345678901234567890123456789012345678",
        _ => "b2345678901234567890123456789012345679",
    })
}

// The name with this number of those that are listed.
fn name_of(id: u8, number: usize) -> Name
    ensures { result ≡ name_of id number }
{
    match id {
        4 => port(number),
        5 => Name::new("lamp"),
        _ => long_name(number),
    }
}
