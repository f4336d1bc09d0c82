// Fields that are each one of several names.
ghost use Rattle.std.specs.Prelude.{◌≡◌, ◌<◌, Some, length, map, slice_get, true};
ghost use Rattle.cm_hooks.specs.Among.{are_names};

use crate::{Answer, Rules, Tail, completion_among, verdict_among};
use cm_text::{Name, is_name};

/// The rules of a program whose own fields are each one of the same names: an atom may abbreviate one, letters have no
/// case, the value of the field is the number of its name, from 0, and `?` lists the names. Each such type is `Rules`.
pub trait Choices {
    ghost use Rattle.std.specs.Prelude.{◌≡◌, ℕ, List, map, true};
    ghost use Rattle.cm_hooks.specs.Among.{are_names};

    /// The names, in the order of their numbers.
    ghost choices: { List (List ℕ) };

    /// Each is name bytes, at most 39.
    ghost are_names: { are_names choices ≡ true };

    /// What `?` says of such a field.
    ghost help_text: { List ℕ };

    /// The names, in the order of their numbers.
    fn names(&self) -> &[&str]
        ensures { map (λ name. name.now) result.now ≡ choices };

    /// What `?` says of such a field.
    fn help(&self) -> Name
        ensures { result ≡ help_text };
}

impl<C: Choices> Rules for C {
    ghost use Rattle.cm_hooks.specs.Among.{choice_meanings};

    ghost meanings = { λ it. choice_meanings C.choices C.help_text };

    fn has_byte(&self, _id: u8, byte: u8) -> bool {
        is_name(byte)
    }

    fn names(&self, _id: u8) -> usize {
        Choices::names(self).len()
    }

    fn name(&self, _id: u8, number: usize) -> Option<Name> {
        name_at(Choices::names(self), number)
    }

    fn verdict(&self, _id: u8, atom: &[u8]) -> Answer {
        verdict_among(Choices::names(self), atom)
    }

    fn completion(&self, _id: u8, atom: &[u8]) -> Tail {
        completion_among(Choices::names(self), atom)
    }

    fn help(&self, _id: u8) -> Name {
        Choices::help(self)
    }

    fn are_lawful(&self) {}
}

// The name with this number.
#[tactic(auto, using(crate::specs::AmongLaws::text_past))]
fn name_at(names: &[&str], number: usize) -> Option<Name>
    requires { are_names (map (λ name. name.now) names.now) ≡ true }
    ensures { result ≡ slice_get (map (λ name. name.now) names.now) number }
{
    if number >= names.len() {
        return None;
    }
    Some(name_of(names, number))
}

// The same, where it is there.
fn name_of(names: &[&str], number: usize) -> Name
    requires names { are_names (map (λ name. name.now) names.now) ≡ true }
    requires number { number < length names.now }
    ensures { slice_get (map (λ name. name.now) names.now) number ≡ Some result }
{
    Name::new(names[number])
}
