// The rules of a command language.
ghost use Rattle.std.specs.Prelude.{◌≡◌, vec_items, map};

use crate::address::{address_help, address_verdict};
use crate::among::{complete_among, judge_among};
use crate::list::{are_texts, is_speech_byte, list_of, name_at};
use cm_hooks::{Answer, Rules, Tail};
use cm_text::Name;
use std::marker::Model;

/// The hook of an IPv4 address, as 10.0.0.1; the value of the field is its number.
pub const IPV4_HOOK: u8 = 0;

/// The hook of an IPv4 prefix, as 10.0.0.0/8.
pub const IPV4_PREFIX_HOOK: u8 = 1;

/// The hook of an IPv6 address, as 2001:db8::1.
pub const IPV6_HOOK: u8 = 2;

/// The hook of an IPv6 prefix, as 2001:db8::/32.
pub const IPV6_PREFIX_HOOK: u8 = 3;

/// The hook of a MAC address, as 00-11-22-33-44-55.
pub const MAC_HOOK: u8 = 4;

/// The hook of the first list of names; those of the others follow it.
pub const FIRST_LIST_HOOK: u8 = 5;

/// Rules for addresses and for the names of lists: the list with number n, from 0, is hook 5 + n. An address is taken
/// as a whole, and refused with a reason that says what it is not. A name may be abbreviated as long as no other
/// begins alike; the value of the field is its number in the list. Names that have other bytes than letters, digits,
/// `-`, `$`, `_`, `.`, `:` and `/` cannot be typed, and a list that has one is not completed.
#[derive(Debug, Drop)]
pub struct SpeechRules {
    lists: Vec<Vec<Name>>,
}

impl Model for SpeechRules {
    ghost use Rattle.std.specs.Prelude.{List, ℕ, map, vec_items};

    ghost Value = { List (List (List ℕ)) };

    ghost view = { λ rules. map vec_items rules.lists.items };
}

impl SpeechRules {
    /// The rules for these lists.
    pub fn new(lists: Vec<Vec<Name>>) -> SpeechRules
        ensures { result ≡ map vec_items lists.items }
    {
        SpeechRules { lists }
    }

    /// The lists, in the order of their hooks.
    pub fn lists(&self) -> &[Vec<Name>]
        ensures { map vec_items result.now ≡ self.now }
    {
        &self.lists
    }
}

impl Rules for SpeechRules {
    ghost use Rattle.cm_speech.specs.Rules.{speech_meanings};

    ghost meanings = { speech_meanings };

    fn has_byte(&self, _id: u8, byte: u8) -> bool {
        is_speech_byte(byte)
    }

    fn names(&self, id: u8) -> usize {
        list_of(self.lists(), id).len()
    }

    fn name(&self, id: u8, number: usize) -> Option<Name> {
        name_at(list_of(self.lists(), id), number)
    }

    #[tactic(auto, unfolding(crate::specs::Rules::verdict_of))]
    fn verdict(&self, id: u8, atom: &[u8]) -> Answer {
        if id < FIRST_LIST_HOOK {
            return address_verdict(id, atom);
        }
        judge_among(list_of(self.lists(), id), atom)
    }

    #[tactic(auto, unfolding(crate::specs::Rules::completion_of))]
    fn completion(&self, id: u8, atom: &[u8]) -> Tail {
        let names = list_of(self.lists(), id);
        if are_texts(names) {
            return complete_among(names, atom);
        }
        Tail::None
    }

    fn help(&self, id: u8) -> Name {
        address_help(id)
    }

    #[tactic(auto, using(crate::proofs::Lawful::speech_lawful))]
    fn are_lawful(&self) {}
}
