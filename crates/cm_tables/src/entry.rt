// The entries of a keyword table.
ghost use Rattle.std.specs.Prelude.{◌≡◌, ◌≤◌, length};

use cm_text::{NAME_LIMIT, Name};

/// How an entry takes part in the look-up (TBLUK).
#[derive(Clone, Copy, Debug, PartialEq, Eq)]
pub enum Flag {
    /// It is listed, and may be abbreviated.
    Plain,
    /// It may be abbreviated, and is not listed.
    Invisible,
    /// It makes its own text ambiguous, and cannot be abbreviated.
    NoRecognise,
    /// It stands for the entry at this position.
    Short(u16),
}

impl Flag {
    ghost use Rattle.cm_tables.specs.Look.{is_recognised};

    // Whether an abbreviation may stand for such an entry.
    pub(crate) fn is_recognised(self) -> bool
        ensures { result ≡ is_recognised self }
    {
        matches!(self, Flag::Plain | Flag::Invisible)
    }
}

/// A keyword, and what it stands for.
#[derive(Debug, Drop)]
pub struct Entry {
    /// The keyword: letters, digits and hyphens.
    pub text: Name,
    /// How it takes part in the look-up.
    pub flag: Flag,
    /// Whether a colon and a value follow it, where it is a switch.
    pub colon: bool,
    /// What it means to the program.
    pub code: u16,
    /// The node of the grammar that follows it.
    pub next: u16,
    /// What `?` says of it after its text, where it says something.
    pub help: Option<Name>,
}

impl Entry {
    ghost use Rattle.cm_tables.specs.Words.{entry, value_entry, with_help};

    /// A keyword with this text and code, which leads to this node: it is listed and may be abbreviated, no colon
    /// follows it, and `?` says no more of it.
    pub fn new(text: &str, code: u16, next: u16) -> Entry
        requires { length text.now ≤ NAME_LIMIT }
        ensures { result ≡ entry text.now code next }
    {
        Entry {
            text: Name::new(text),
            flag: Flag::Plain,
            colon: false,
            code,
            next,
            help: None,
        }
    }

    /// The same with a colon: a switch, whose value this node reads.
    pub fn with_value(text: &str, code: u16, next: u16) -> Entry
        requires { length text.now ≤ NAME_LIMIT }
        ensures { result ≡ value_entry text.now code next }
    {
        Entry {
            text: Name::new(text),
            flag: Flag::Plain,
            colon: true,
            code,
            next,
            help: None,
        }
    }

    /// The same entry, of which `?` says this after its text.
    pub fn with_help(self, help: &str) -> Entry
        requires { length help.now ≤ NAME_LIMIT }
        ensures { result ≡ with_help help.now self }
    {
        Entry {
            help: Some(Name::new(help)),
            ..self
        }
    }
}
