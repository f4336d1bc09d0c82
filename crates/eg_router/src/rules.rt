// What the router says of its own kinds of field, by its interfaces as they stand.
ghost use Rattle.std.specs.Prelude.{◌≡◌, slice_get};
ghost use Rattle.std.specs.List.{list_all};
ghost use Rattle.cm_text.specs.Bytes.{is_word};
ghost use Rattle.eg_router.specs.Interfaces.{names_of};
ghost use Rattle.eg_router.specs.Rules.{address_verdict, name_verdict, new_name_verdict, stands};

use crate::interfaces::is_typed_name;
use crate::{INTERFACE_LIMIT, Interface, Interfaces};
use cm_fields::Reason;
use cm_hooks::{Answer, Rules, Tail, completion_among};
use cm_net::parse_ipv4;
use cm_text::{Name, equals, is_name, is_word};
use std::convert::AsStr;

// The hooks: one reads an address, one the name of an interface that is there, one such a name or that of an interface
// that may be made.
pub(crate) const IPV4: u8 = 0;

pub(crate) const NAME: u8 = 1;

pub(crate) const NEW_NAME: u8 = 2;

/// As ESC completes its name: nothing where this has a point.
impl AsStr for Interface {
    ghost use Rattle.eg_router.specs.Rules.{completed};

    ghost text = { λ it. completed it.name };

    fn as_str(&self) -> &str {
        if are_word_bytes(self.name.as_bytes()) {
            self.name.as_str()
        } else {
            ""
        }
    }
}

/// An address is the text that writes an IPv4 address. A name of an interface has letters without case, is not
/// abbreviated, and is completed among the interfaces that stand now, which `?` lists. One that is not there is
/// refused, but INTERFACE takes it where it may be made.
impl Rules for Interfaces {
    ghost use Rattle.eg_router.specs.Rules.{router_rules};

    ghost meanings = { λ it. router_rules it };

    fn has_byte(&self, id: u8, byte: u8) -> bool {
        match id {
            IPV4 => byte.is_ascii_digit() || byte == b'.',
            _ => is_name(byte) || byte == b'.',
        }
    }

    fn names(&self, id: u8) -> usize {
        match id {
            IPV4 => 0,
            _ => self.as_slice().len(),
        }
    }

    fn name(&self, id: u8, number: usize) -> Option<Name> {
        match id {
            IPV4 => None,
            _ => name_listed(self, number),
        }
    }

    fn verdict(&self, id: u8, atom: &[u8]) -> Answer {
        match id {
            IPV4 => address_verdict(atom),
            NAME => name_verdict(atom, self.as_slice()),
            _ => new_name_verdict(atom, self.as_slice()),
        }
    }

    #[tactic(auto, using(crate::proofs::Completions::are_texts))]
    fn completion(&self, id: u8, atom: &[u8]) -> Tail {
        match id {
            IPV4 => Tail::None,
            _ => completion_among(self.as_slice(), atom),
        }
    }

    #[tactic(auto, unfolding(crate::specs::Rules::address_help, crate::specs::Rules::name_help, crate::specs::Rules::new_name_help))]
    fn help(&self, id: u8) -> Name {
        match id {
            IPV4 => Name::new("address, as 10.0.0.1"),
            NAME => Name::new("name of an interface"),
            _ => Name::new("name of an interface, old or new"),
        }
    }

    #[tactic(auto, using(crate::proofs::Completions::rules_lawful))]
    fn are_lawful(&self) {
        // What the interfaces keep, for the proof.
        self.as_slice();
    }
}

// The name of the interface with this number, where there is one.
#[tactic(auto, using(crate::proofs::Completions::name_listed, crate::proofs::Completions::none_listed))]
fn name_listed(interfaces: &Interfaces, number: usize) -> Option<Name>
    ensures { result ≡ slice_get (names_of interfaces.now) number }
{
    if number >= interfaces.as_slice().len() {
        return None;
    }
    Some(Name::new(interfaces.name_at(number)))
}

// An address.
#[tactic(auto, using(crate::proofs::Fields::is_some_view), unfolding(crate::specs::Rules::address_verdict, crate::specs::Rules::no_address, cm_fields::specs::Reason::is_reason, cm_fields::specs::Reason::is_reason_text))]
fn address_verdict(atom: &[u8]) -> Answer
    ensures { result ≡ address_verdict atom.now }
{
    if parse_ipv4(atom).is_none() {
        return Answer::NoBecause(Reason::of(131, "Not an address"));
    }
    Answer::Yes(0)
}

// The name of an interface that is there.
#[tactic(auto, unfolding(crate::specs::Rules::no_such, cm_fields::specs::Reason::is_reason, cm_fields::specs::Reason::is_reason_text))]
fn name_verdict(atom: &[u8], interfaces: &[Interface]) -> Answer
    ensures { result ≡ name_verdict atom.now interfaces.now }
{
    if !stands(atom, interfaces) {
        return Answer::NoBecause(Reason::of(128, "No such interface"));
    }
    Answer::Yes(0)
}

// Such a name, or that of one that may be made.
#[tactic(auto, unfolding(crate::specs::Rules::no_name, crate::specs::Rules::no_room, cm_fields::specs::Reason::is_reason, cm_fields::specs::Reason::is_reason_text))]
fn new_name_verdict(atom: &[u8], interfaces: &[Interface]) -> Answer
    ensures { result ≡ new_name_verdict atom.now interfaces.now }
{
    if stands(atom, interfaces) {
        return Answer::Yes(0);
    }
    if !is_typed_name(atom) {
        return Answer::NoBecause(Reason::of(129, "Not a name of an interface"));
    }
    if interfaces.len() >= INTERFACE_LIMIT {
        return Answer::NoBecause(Reason::of(130, "Too many interfaces"));
    }
    Answer::Yes(0)
}

// Whether an interface of this name is there, with no regard to case.
fn stands(atom: &[u8], interfaces: &[Interface]) -> bool
    ensures { result ≡ stands atom.now interfaces.now }
{
    interfaces.iter().any(|it| equals(it.name.as_bytes(), atom))
}

fn are_word_bytes(text: &[u8]) -> bool
    ensures { result ≡ list_all is_word text.now }
{
    text.iter().all(|byte| is_word(*byte))
}
