// What a program says of its own kinds of field.
ghost use Rattle.std.specs.Prelude.{◌≡◌, ◌≤◌, length, slice_get};
ghost use Rattle.cm_text.specs.declared.text.TheConstants.{LINE_LIMIT};

use crate::{Answer, Tail};
use cm_text::{Name, is_name};

/// What a program says of the kinds of field of its own, its hooks, each under an id that its grammar names. The rules
/// are lent as the catalogue is, so that they may look into the state of the program, and change with it.
pub trait Rules {
    ghost use Rattle.cm_hooks.specs.Meanings.{IsLawful, Meanings};

    /// What the hooks mean now.
    ghost meanings: { Self → Meanings };

    /// Whether a field of the hook with this id may have a byte (COMND's break mask, .CMBRK): the field is the run of
    /// such bytes, and the first other byte ends it. Each is graphic, from `!` to `~`, and none is `?`. A program that
    /// has nothing to say of it answers `is_name(byte)`.
    fn has_byte(&self, id: u8, byte: u8) -> bool
        ensures { result ≡ ((meanings self.now).bytes id).test byte };

    /// How many names `?` lists that a field of the hook with this id may be; 0 where the program lists none.
    fn names(&self, id: u8) -> usize
        ensures { result ≡ length ((meanings self.now).names id) };

    /// The name with this number of them, from 0, in the order in which they are listed. None from their number on.
    fn name(&self, id: u8, number: usize) -> Option<Name>
        ensures { result ≡ slice_get ((meanings self.now).names id) number };

    /// Whether the hook with this id takes an atom.
    fn verdict(&self, id: u8, atom: &[u8]) -> Answer
        requires { length atom.now ≤ LINE_LIMIT }
        ensures { result ≡ (meanings self.now).verdict id atom.now };

    /// How the hook with this id completes an atom.
    fn completion(&self, id: u8, atom: &[u8]) -> Tail
        requires { length atom.now ≤ LINE_LIMIT }
        ensures { result ≡ (meanings self.now).completion id atom.now };

    /// The help text of the hook with this id.
    fn help(&self, id: u8) -> Name
        ensures { result ≡ (meanings self.now).help id };

    /// Hands on to a proof that what completes an atom is bytes of the field, and that an atom with its whole
    /// completion has at most 255 bytes and is taken. It does nothing.
    fn are_lawful(&self)
        ensures { IsLawful (meanings self.now) };
}

/// The rules of a program that has no fields of its own: an atom is a run of name bytes, each is refused, none is
/// completed, no names are listed, and the help is empty.
#[derive(Clone, Copy, Debug)]
pub struct NoRules;

impl Rules for NoRules {
    ghost use Rattle.cm_hooks.specs.Meanings.{no_meanings};

    ghost meanings = { λ it. no_meanings };

    fn has_byte(&self, _id: u8, byte: u8) -> bool {
        is_name(byte)
    }

    fn names(&self, _id: u8) -> usize {
        0
    }

    fn name(&self, _id: u8, _number: usize) -> Option<Name> {
        None
    }

    fn verdict(&self, _id: u8, _atom: &[u8]) -> Answer {
        Answer::No
    }

    fn completion(&self, _id: u8, _atom: &[u8]) -> Tail {
        Tail::None
    }

    fn help(&self, _id: u8) -> Name {
        Name::new("")
    }

    fn are_lawful(&self) {}
}
