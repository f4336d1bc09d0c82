// Hooks that are asked, whatever their functions are.
use crate::{Hooks, RuleSet, Tail, Verdict};
use cm_text::Name;

/// Hooks under the ids from 0 up, each with functions of its own, and what they mean. `Lent` is: code that is to take
/// the hooks of any program takes any type of these.
pub trait Callbacks: Drop {
    ghost use Rattle.std.specs.Prelude.{ℕ, ◌≡◌, ◌<◌, ◌≤◌, length};
    ghost use Rattle.cm_text.specs.declared.text.TheConstants.{LINE_LIMIT};
    ghost use Rattle.cm_hooks.specs.Meanings.{IsLawful, Meanings, on_names};

    /// What the hooks mean.
    ghost meant: { Meanings };

    /// What completes an atom is name bytes, and taken.
    ghost lawful: { IsLawful (on_names meant) };

    /// How many hooks are held.
    ghost count: { Self → ℕ };

    /// Each answers what is meant by its id.
    ghost ties: { Self → Type 0 };

    /// There is one proof of that.
    ghost one_tie: { (it : Self) → IsProp (ties it) };

    /// How many hooks are held.
    fn len(&self) -> u8
        ensures { result ≡ count self.now };

    /// What the hook with this id says of an atom.
    fn ask(&self, id: u8, atom: &[u8]) -> Verdict
        requires ties { ties self.now }
        requires id { id < count self.now }
        requires short { length atom.now ≤ LINE_LIMIT }
        ensures { result ≡ meant.verdict id atom.now };

    /// How the hook with this id completes an atom.
    fn complete(&self, id: u8, atom: &[u8]) -> Tail
        requires ties { ties self.now }
        requires id { id < count self.now }
        requires short { length atom.now ≤ LINE_LIMIT }
        ensures { result ≡ meant.completion id atom.now };

    /// The help text of the hook with this id.
    fn help(&self, id: u8) -> Name
        requires ties { ties self.now }
        requires id { id < count self.now }
        ensures { result ≡ meant.help id };
}

/// Hooks that are lent.
#[derive(Drop)]
pub struct Lent<'a, R> {
    /// The hooks.
    pub hooks: &'a Hooks<R>,
}

impl<'a, R: RuleSet> Callbacks for Lent<'a, R> {
    ghost use Rattle.cm_hooks.specs.Ties.{Ties, Ties-prop, count};

    ghost meant = { R.meant };

    ghost lawful = { R.lawful };

    ghost count = { λ lent. count lent.hooks.now };

    ghost ties = { λ lent. Ties R.meant lent.hooks.now };

    ghost one_tie = { λ lent. Ties-prop R.meant lent.hooks.now };

    fn len(&self) -> u8 {
        self.hooks.len()
    }

    fn ask(&self, id: u8, atom: &[u8]) -> Verdict {
        self.hooks.ask(id, atom)
    }

    fn complete(&self, id: u8, atom: &[u8]) -> Tail {
        self.hooks.complete(id, atom)
    }

    fn help(&self, id: u8) -> Name {
        self.hooks.help(id)
    }
}
