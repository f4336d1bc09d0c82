// Rules that stored hooks answer.
use crate::{Answer, Callbacks, Rules, Tail};
use cm_text::{Name, is_name};

/// The rules that stored hooks answer. Their fields are runs of name bytes, and `?` lists no names. Under an id that is
/// not held each atom is refused, none is completed, and the help is empty.
#[derive(Drop)]
pub struct StoredRules<H: Callbacks> {
    hooks: H,
    ghost ties: { H.ties hooks } by { H.one_tie hooks },
}

impl<H: Callbacks> StoredRules<H> {
    ghost use Rattle.std.specs.Prelude.{◌≡◌};
    ghost use Rattle.cm_hooks.specs.Meanings.{held_meanings};

    /// The rules that these hooks answer, each of which answers what is meant by its id.
    pub fn new(hooks: H) -> StoredRules<H>
        requires ties { H.ties hooks }
        ensures { ⟦<StoredRules<H> as Rules>⟧.meanings result ≡ held_meanings (H.count hooks) H.meant }
    {
        StoredRules { hooks }
    }
}

impl<H: Callbacks> Rules for StoredRules<H> {
    ghost use Rattle.cm_hooks.specs.Meanings.{held_meanings};

    ghost meanings = { λ it. held_meanings (H.count it.hooks) H.meant };

    fn has_byte(&self, _id: u8, byte: u8) -> bool {
        is_name(byte)
    }

    fn names(&self, _id: u8) -> usize {
        0
    }

    fn name(&self, _id: u8, _number: usize) -> Option<Name> {
        None
    }

    fn verdict(&self, id: u8, atom: &[u8]) -> Answer {
        if id < self.hooks.len() {
            self.hooks.ask(id, atom).answer()
        } else {
            Answer::No
        }
    }

    fn completion(&self, id: u8, atom: &[u8]) -> Tail {
        if id < self.hooks.len() {
            self.hooks.complete(id, atom)
        } else {
            Tail::None
        }
    }

    fn help(&self, id: u8) -> Name {
        if id < self.hooks.len() {
            self.hooks.help(id)
        } else {
            Name::new("")
        }
    }

    fn are_lawful(&self) {}
}
