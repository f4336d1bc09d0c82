// What lines of a language tell.
ghost use Rattle.std.specs.Prelude.{◌≡◌};

use crate::Command;
use cm_text::Name;
use std::marker::Model;

/// The most lists of a language.
pub const LIST_LIMIT: usize = 200;

/// The most keywords that lead to one that has help.
pub const HELP_WORD_LIMIT: usize = 16;

/// Names, in the order in which they are told. Contracts see the list of them.
#[derive(Debug, Drop)]
pub struct NameList {
    items: Vec<Name>,
}

impl Model for NameList {
    ghost use Rattle.std.specs.Prelude.{ℕ, List};

    ghost Value = { List (List ℕ) };

    ghost view = { λ it. it.items.items };
}

impl NameList {
    /// These names.
    pub fn new(items: Vec<Name>) -> NameList
        ensures { result ≡ items.items }
    {
        NameList { items }
    }

    /// The names as a slice.
    pub fn as_slice(&self) -> &[Name]
        ensures { result.now ≡ self.now }
    {
        &self.items
    }

    /// Gives the names.
    pub fn into_vec(self) -> Vec<Name>
        ensures { result.items ≡ self }
    {
        self.items
    }
}

/// The help of a keyword. Contracts see the keywords up to it, and what is said of it.
#[derive(Debug, Drop)]
pub struct KeywordHelp {
    path: Vec<Name>,
    text: Vec<u8>,
}

impl Model for KeywordHelp {
    ghost use Rattle.cm_synopsis.specs.Helps.{KeywordHelp};

    ghost Value = { KeywordHelp };

    ghost view = { λ it. record { path = it.path.items; text = it.text.items } };
}

impl KeywordHelp {
    // This is said of the last of these keywords.
    pub(crate) fn new(path: Vec<Name>, text: Vec<u8>) -> KeywordHelp
        ensures { result ≡ record { path = path.items; text = text.items } }
    {
        KeywordHelp { path, text }
    }

    /// The keywords that lead to it, and itself, the last.
    pub fn path(&self) -> &[Name]
        ensures { result.now ≡ self.now.path }
    {
        &self.path
    }

    /// What is said of it.
    pub fn text(&self) -> &[u8]
        ensures { result.now ≡ self.now.text }
    {
        &self.text
    }
}

// What a line says.
#[derive(Debug, Drop)]
pub(crate) enum Saying {
    // Nothing: it is empty, or a remark.
    Nothing,
    // The prompt.
    Prompt(Name),
    // The name of a list, and the names that it has from the start.
    Listing(Name, NameList),
    // The help of a keyword.
    Help(KeywordHelp),
    // A command.
    Command(Command),
}
