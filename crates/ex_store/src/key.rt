// What names a file: its directory, name, type and generation.
ghost use Rattle.std.specs.Prelude.{◌≡◌, ◌<◌, length, IfNone, IfSome};
ghost use Rattle.cm_text.specs.declared.name.TheConstants.{NAME_LIMIT};
ghost use Rattle.ex_store.specs.Views.{full_name, name_pair};
ghost use Rattle.ex_store.specs.Rows.{by_key};

use cm_text::{NAME_LIMIT, Name};
use std::cmp::Ordering;

/// A name and a type in a directory.
#[derive(Debug, Drop)]
pub struct Key {
    /// The name of the directory.
    pub directory: Name,
    /// The name, 1 to 39 bytes.
    pub name: Name,
    /// The type, 0 to 39 bytes.
    pub kind: Name,
}

/// The full name of a file: one generation of a name and a type in a directory.
#[derive(Debug, Drop)]
pub struct FullName {
    pub key: Key,
    /// The generation, 1 to 131,071.
    pub generation: u32,
}

/// A file that another is made of, and that other one.
#[derive(Debug, Drop)]
pub struct NamePair {
    pub source: FullName,
    pub target: FullName,
}

/// The full name of a file, as texts that are lent.
#[derive(Clone, Copy, Debug)]
pub struct Full<'a> {
    /// The name of the directory.
    pub directory: &'a str,
    /// The name.
    pub name: &'a str,
    /// The type.
    pub kind: &'a str,
    /// The generation.
    pub generation: u32,
}

/// The full names of a file that another is made of, and of that other one, as texts that are lent.
#[derive(Clone, Copy, Debug)]
pub struct Pair<'a> {
    /// The file that was taken.
    pub source: Full<'a>,
    /// The file that was made of it.
    pub target: Full<'a>,
}

// Which of two comes first, by the bytes of directory, name and type.
pub(crate) fn key_cmp(key: &Key, other: &Key) -> Ordering
    ensures { result ≡ by_key key.now other.now }
{
    let directory = key.directory.as_bytes().cmp(other.directory.as_bytes());
    let name = key.name.as_bytes().cmp(other.name.as_bytes());
    let kind = key.kind.as_bytes().cmp(other.kind.as_bytes());
    directory.then(name.then(kind))
}

// A name that is one of its own.
pub(crate) fn copy_of(name: &Name) -> Name
    ensures { result ≡ name.now }
{
    Name::new(name.as_str())
}

// The name that a text is; None where it is longer than any.
pub(crate) fn short(text: &str) -> Option<Name>
    ensures name { IfSome result (λ name. name ≡ text.now) }
    ensures none { IfNone result (NAME_LIMIT < length text.now) }
{
    if text.len() > NAME_LIMIT {
        return None;
    }
    Some(Name::new(text))
}

impl Key {
    // A key of its own.
    pub(crate) fn copy(&self) -> Key
        ensures { result ≡ self.now }
    {
        Key {
            directory: copy_of(&self.directory),
            name: copy_of(&self.name),
            kind: copy_of(&self.kind),
        }
    }
}

impl FullName {
    // A full name of its own.
    pub(crate) fn copy(&self) -> FullName
        ensures { result ≡ self.now }
    {
        FullName {
            key: self.key.copy(),
            generation: self.generation,
        }
    }

    // The same, as texts that are lent.
    pub(crate) fn lent(&self) -> Full<'_>
        ensures { full_name result ≡ self.now }
    {
        Full {
            directory: self.key.directory.as_str(),
            name: self.key.name.as_str(),
            kind: self.key.kind.as_str(),
            generation: self.generation,
        }
    }
}

impl NamePair {
    // A pair of its own.
    pub(crate) fn copy(&self) -> NamePair
        ensures { result ≡ self.now }
    {
        NamePair {
            source: self.source.copy(),
            target: self.target.copy(),
        }
    }

    // The same, as texts that are lent.
    pub(crate) fn lent(&self) -> Pair<'_>
        ensures { name_pair result ≡ self.now }
    {
        Pair {
            source: self.source.lent(),
            target: self.target.lent(),
        }
    }
}
