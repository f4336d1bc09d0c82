// Fields and their kinds.
ghost use Rattle.std.specs.Prelude.{◌≡◌, []};
ghost use Rattle.std.specs.Option.{option_copied};
ghost use Rattle.cm_text.specs.ByteSets.{set_of};
ghost use Rattle.cm_synopsis.specs.Kinds.{address_kind, begins_in, class_after, class_of, class_range, inside, is_inside, kind_of, kinds_after, kinds_of, known_kind, last_of, named_kind, place_of, size_of, with_read};

use crate::Reason;
use crate::bytes::ends_in;
use arrayvec::ArrayVec;
use cm_text::{ByteSet, Name};
use std::marker::Model;

/// The most kinds that a field has.
pub const KIND_LIMIT: usize = 8;

/// What one field of a line may be.
#[derive(Clone, Copy, Debug, Default, PartialEq, Eq)]
pub enum Kind {
    /// A number.
    Number,
    /// A word.
    #[default]
    Word,
    /// A quoted text.
    Quoted,
    /// A date.
    Date,
    /// The rest of the line.
    Rest,
    /// An IPv4 address.
    Ipv4,
    /// An IPv4 prefix.
    Ipv4Prefix,
    /// An IPv6 address.
    Ipv6,
    /// An IPv6 prefix.
    Ipv6Prefix,
    /// A MAC address.
    Mac,
    /// A name of the list with this number: how many lists stand above it.
    Listed(usize),
    /// A run of these bytes.
    Class(ByteSet),
}

/// The kinds of a field, in the order in which they are written: one at least. Contracts see the list of them.
#[derive(Clone, Debug, Drop)]
pub struct Kinds {
    items: ArrayVec<Kind, KIND_LIMIT>,
}

impl Model for Kinds {
    ghost use Rattle.std.specs.Prelude.{List};
    ghost use Rattle.cm_synopsis.specs.declared.field.Kind.{Kind};

    ghost Value = { List Kind };

    ghost view = { λ kinds. kinds.items.items };
}

impl Kinds {
    ghost use Rattle.std.specs.Prelude.{[]};
    ghost use Rattle.cm_synopsis.specs.Kinds.{with_kind};

    // No kinds.
    fn none() -> Kinds
        ensures { result ≡ [] }
    {
        Kinds {
            items: ArrayVec::new(),
        }
    }

    // These kinds, and one more.
    fn with(mut self, kind: Kind) -> Result<Kinds, Reason>
        ensures { result ≡ with_kind self kind }
    {
        match self.items.try_push(kind) {
            Ok(()) => Ok(self),
            Err(_) => Err(Reason::ManyKinds),
        }
    }

    /// The kinds as a slice.
    pub fn as_slice(&self) -> &[Kind]
        ensures { result.now ≡ self.now }
    {
        &self.items
    }
}

// The place of the first list with this name, after these that are passed.
fn place_of(lists: &[Name], text: &[u8]) -> Option<usize>
    ensures { result ≡ place_of 0 text.now lists.now }
{
    for place in 0..lists.len() {
        if lists[place].as_bytes() == text {
            return Some(place);
        }
    }
    None
}

// The set with the bytes of a range more.
fn class_range(set: ByteSet, first: u8, last: u8) -> Option<ByteSet>
    ensures { result ≡ class_range set first last }
{
    if first < b'!' || first > last || last > b'~' {
        return None;
    }
    Some(set.with_range(first, last))
}

// The last byte of a range whose first byte is before these.
fn last_of(after: &[u8]) -> Option<u8>
    ensures { result ≡ last_of after.now }
{
    match after {
        [hyphen, last, ..] if *hyphen == b'-' => Some(*last),
        _ => None,
    }
}

// How many bytes are passed behind the first of a range.
fn size_of(last: Option<u8>) -> usize
    ensures { result ≡ size_of last }
{
    match last {
        Some(_) => 2,
        None => 0,
    }
}

// The set of the bytes that a class tells.
fn class_in(text: &[u8]) -> Option<ByteSet>
    ensures { result ≡ class_after (set_of []) 0 text.now }
{
    let mut set = ByteSet::of(b"");
    let mut passed = 0;
    for at in 0..text.len() {
        if passed > 0 {
            passed -= 1;
            continue;
        }
        let last = last_of(&text[at + 1..]);
        set = class_range(set, text[at], last.unwrap_or(text[at]))?;
        passed = size_of(last);
    }
    Some(set)
}

// Whether the first byte is this one.
fn begins_in(first: u8, text: &[u8]) -> bool
    ensures { result ≡ begins_in first text.now }
{
    match text.first() {
        Some(&byte) => byte == first,
        None => false,
    }
}

// What is between the first byte of a text and its last, where the last is this one and not the first.
pub(crate) fn inside(last: u8, text: &[u8]) -> Option<&[u8]>
    ensures { option_copied result ≡ inside last text.now }
{
    if text.len() < 2 || !ends_in(last, text) {
        return None;
    }
    Some(text[1..].split_at(text.len() - 2).0)
}

// The class that is between brackets.
fn class_of(inside: Option<&[u8]>) -> Result<Kind, Reason>
    ensures { result ≡ class_of (option_copied inside.entry) }
{
    match inside {
        Some(text) if !text.is_empty() => match class_in(text) {
            Some(set) => Ok(Kind::Class(set)),
            None => Err(Reason::BadClass),
        },
        _ => Err(Reason::BadClass),
    }
}

// The kind that has a word of its own.
pub(crate) fn known_kind(text: &[u8]) -> Option<Kind>
    ensures { result ≡ known_kind text.now }
{
    if text == b"number".as_slice() {
        Some(Kind::Number)
    } else if text == b"word".as_slice() {
        Some(Kind::Word)
    } else if text == b"quoted".as_slice() {
        Some(Kind::Quoted)
    } else if text == b"date".as_slice() {
        Some(Kind::Date)
    } else if text == b"rest".as_slice() {
        Some(Kind::Rest)
    } else if text == b"mac".as_slice() {
        Some(Kind::Mac)
    } else {
        address_kind(text)
    }
}

// The kind of an address that has a word of its own.
fn address_kind(text: &[u8]) -> Option<Kind>
    ensures { result ≡ address_kind text.now }
{
    if text == b"ipv4".as_slice() {
        Some(Kind::Ipv4)
    } else if text == b"ipv4/len".as_slice() {
        Some(Kind::Ipv4Prefix)
    } else if text == b"ipv6".as_slice() {
        Some(Kind::Ipv6)
    } else if text == b"ipv6/len".as_slice() {
        Some(Kind::Ipv6Prefix)
    } else {
        None
    }
}

// The kind that a word or the name of a list tells.
fn named_kind(lists: &[Name], text: &[u8]) -> Result<Kind, Reason>
    ensures { result ≡ named_kind (known_kind text.now) (place_of 0 text.now lists.now) }
{
    if let Some(kind) = known_kind(text) {
        return Ok(kind);
    }
    match place_of(lists, text) {
        Some(place) => Ok(Kind::Listed(place)),
        None => Err(Reason::UnknownKind),
    }
}

// The kind that a text tells.
fn kind_of(lists: &[Name], text: &[u8]) -> Result<Kind, Reason>
    ensures { result ≡ kind_of lists.now text.now }
{
    if begins_in(b'[', text) {
        class_of(inside(b']', text))
    } else {
        named_kind(lists, text)
    }
}

// These kinds, and the one that a text tells.
fn with_read(lists: &[Name], made: Kinds, text: &[u8]) -> Result<Kinds, Reason>
    ensures { result ≡ with_read made (kind_of lists.now text.now) }
{
    match kind_of(lists, text) {
        Ok(kind) => made.with(kind),
        Err(reason) => Err(reason),
    }
}

// Whether a byte is of a kind, and no bar between two.
fn is_inside(byte: u8) -> bool
    ensures { result ≡ is_inside byte }
{
    byte != b'|'
}

// The kinds that a text tells, with bars between them.
fn kinds_between(lists: &[Name], text: &[u8]) -> Result<Kinds, Reason>
    ensures { result ≡ kinds_after lists.now [] [] text.now }
{
    let mut made = Kinds::none();
    let mut start = 0;
    for at in 0..text.len() {
        if is_inside(text[at]) {
            continue;
        }
        made = with_read(lists, made, &text[start..at])?;
        start = at + 1;
    }
    with_read(lists, made, &text[start..])
}

// The kinds of a field.
pub(crate) fn kinds_of(lists: &[Name], text: &[u8]) -> Result<Kinds, Reason>
    ensures { result ≡ kinds_of lists.now text.now }
{
    if !begins_in(b'<', text) {
        return with_read(lists, Kinds::none(), text);
    }
    match inside(b'>', text) {
        Some(text) => kinds_between(lists, text),
        None => Err(Reason::UnknownKind),
    }
}
