// The words that a program is given.
ghost use Rattle.std.specs.Prelude.{◌≡◌, ◌<◌, ◌≤◌, ℕ, List, [], length, Some, None, IfSome, is_none, nat_le, slice_get, if◌then◌else◌};
ghost use Rattle.cm_io.specs.Words.{count, with_word, word_at};

use arrayvec::{ArrayString, ArrayVec};
use std::marker::Model;

/// The most words that are held.
pub const MOST_WORDS: usize = 4;

/// The most bytes of a word.
pub const LONGEST_WORD: usize = 255;

// Contracts see the bytes of a word.
#[derive(Drop)]
struct Word {
    text: ArrayString<LONGEST_WORD>,
}

impl Model for Word {
    ghost Value = { List ℕ };

    ghost view = { λ word. word.text.bytes };
}

impl Default for Word {
    fn default() -> Word {
        Word {
            text: ArrayString::new(),
        }
    }
}

/// The words that a program is given: at most 4, each of at most 255 bytes, or too many. Contracts see the list of
/// the words, and none where they are too many.
#[derive(Drop)]
pub struct Words {
    words: ArrayVec<Word, MOST_WORDS>,
    too_many: bool,
}

impl Model for Words {
    ghost use Rattle.std.specs.Prelude.{ℕ, List, Option, Some, None, if◌then◌else◌};

    ghost Value = { Option (List (List ℕ)) };

    ghost view = { λ words. if words.too_many then None else Some words.words.items };
}

impl Words {
    /// No words.
    pub fn new() -> Words
        ensures { result ≡ Some [] }
    {
        Words {
            words: ArrayVec::new(),
            too_many: false,
        }
    }

    /// More words than any program takes, as those are that the system cannot tell.
    pub fn untold() -> Words
        ensures { result ≡ None }
    {
        Words {
            words: ArrayVec::new(),
            too_many: true,
        }
    }

    /// Adds a word. Where 4 are held, or it has more than 255 bytes, the words are too many from then on.
    pub fn push(&mut self, word: &str)
        ensures { self.new ≡ with_word self.old word.now }
    {
        match word_of(word) {
            Some(word) if self.words.len() < MOST_WORDS => self.words.push(word),
            _ => self.too_many = true,
        }
    }

    /// Whether they are too many: more than 4 were given, one of more than 255 bytes, or one that the system cannot
    /// tell.
    pub fn too_many(&self) -> bool
        ensures { result ≡ is_none self.now }
    {
        self.too_many
    }

    /// How many words there are, and 0 where they are too many.
    pub fn len(&self) -> u8
        ensures number { result ≡ count self.now }
        ensures few { result ≤ MOST_WORDS }
    {
        if self.too_many {
            return 0;
        }
        self.words.len() as u8
    }

    /// The word at a position, from 0.
    pub fn word(&self, i: u8) -> &str
        requires { i < count self.now }
        ensures { word_at self.now i ≡ Some result.now }
    {
        let word = &self.words[usize::from(i)];
        word.text.as_str()
    }
}

// A word, unless it is too long.
fn word_of(text: &str) -> Option<Word>
    ensures { result ≡ (if nat_le (length text.now) LONGEST_WORD then Some text.now else None) }
{
    let mut word = ArrayString::new();
    match word.try_push_str(text) {
        Ok(()) => Some(Word { text: word }),
        Err(_) => None,
    }
}
