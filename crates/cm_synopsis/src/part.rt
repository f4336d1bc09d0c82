// The parts of a command, each read of its word.
ghost use Rattle.std.specs.Prelude.{◌≡◌, ◌+◌, ◌<◌, drop, length, take, true};
ghost use Rattle.std.specs.List.{list_all};
ghost use Rattle.cm_synopsis.specs.Bytes.{is_fine};
ghost use Rattle.cm_synopsis.specs.Kinds.{inside, kinds_of};
ghost use Rattle.cm_synopsis.specs.Names.{name_of};
ghost use Rattle.cm_synopsis.specs.Parts.{begins_in_digit, field_of, guide_of, next_number, number_after, number_of, part_of, plain_part, ranged, read_part, sign_part, switch_of, word_part};

use crate::bytes::{ends_in, is_digit, is_fine_text, is_sign, run_before};
use crate::field::{Kinds, inside, kinds_of};
use crate::reason::Reason;
use crate::short::{name_of, short_name};
use cm_text::{NAME_LIMIT, Name};

/// The greatest number of a range.
pub const NUMBER_LIMIT: u32 = u32::MAX;

/// What is round parts of a command.
#[derive(Clone, Copy, Debug, Default, PartialEq, Eq)]
pub enum Bracket {
    /// `[ ]`: what may be left out.
    #[default]
    Optional,
    /// `< | >`: one of several.
    Choice,
    /// `{ | }`: any number of several, in any order, each once.
    AnyOrder,
}

/// A part of a command.
#[derive(Debug, Drop)]
pub enum Part {
    /// A keyword, as it is written.
    Keyword(Name),
    /// A guide word.
    Guide(Name),
    /// A field: its name, and what it may be.
    Field(Name, Kinds),
    /// The least and the greatest number of the field before.
    Range(u32, u32),
    /// A switch.
    Switch(Name),
    /// A switch with a colon, before its field.
    Lead(Name),
    /// A bracket opens.
    Open(Bracket),
    /// A bracket closes.
    Close(Bracket),
    /// The next of several.
    Or,
    /// The field before again, any number of times.
    Again,
}

// The guide word that a word in parentheses is.
#[tactic(auto, using(crate::proofs::Ascii::inside_ascii))]
fn guide_of(text: &[u8]) -> Result<Part, Reason>
    requires { list_all is_fine text.now ≡ true }
    ensures { result ≡ guide_of (inside 41 text.now) }
{
    match inside(b')', text) {
        None => Err(Reason::OpenGuide),
        Some([]) => Err(Reason::NoName),
        Some(text) if text.len() > NAME_LIMIT => Err(Reason::LongWord),
        Some(text) => Ok(Part::Guide(short_name(text))),
    }
}

// The part that a sign is.
fn sign_part(sign: u8) -> Part
    ensures { result ≡ sign_part sign }
{
    match sign {
        b'[' => Part::Open(Bracket::Optional),
        b'<' => Part::Open(Bracket::Choice),
        b'{' => Part::Open(Bracket::AnyOrder),
        b']' => Part::Close(Bracket::Optional),
        b'>' => Part::Close(Bracket::Choice),
        b'}' => Part::Close(Bracket::AnyOrder),
        _ => Part::Or,
    }
}

// The switch that stands behind its slash.
fn switch_of(text: &[u8]) -> Result<Part, Reason>
    ensures { result ≡ switch_of text.now }
{
    if ends_in(b':', text) {
        return Ok(Part::Lead(name_of(text.split_at(text.len() - 1).0)?));
    }
    Ok(Part::Switch(name_of(text)?))
}

// The field whose name ends before its first colon.
fn field_of(lists: &[Name], text: &[u8], colon: usize) -> Result<Part, Reason>
    requires { colon < length text.now }
    ensures { result ≡ field_of (name_of (take colon text.now)) (kinds_of lists.now (drop (colon + 1) text.now)) }
{
    let name = name_of(&text[..colon])?;
    Ok(Part::Field(name, kinds_of(lists, &text[colon + 1..])?))
}

// A number with one digit more.
fn next_number(number: u32, byte: u8) -> Option<u32>
    ensures { result ≡ next_number number byte }
{
    if !is_digit(byte) {
        return None;
    }
    let next = u64::from(number) * 10 + u64::from(byte - b'0');
    if next > u64::from(NUMBER_LIMIT) {
        return None;
    }
    Some(next as u32)
}

// The number that digits after others write.
fn number_after(digits: &[u8]) -> Option<u32>
    ensures { result ≡ number_after 0 digits.now }
{
    let mut number = 0;
    for byte in digits {
        number = next_number(number, *byte)?;
    }
    Some(number)
}

// The number that digits write.
fn number_of(digits: &[u8]) -> Option<u32>
    ensures { result ≡ number_of digits.now }
{
    if digits.is_empty() {
        return None;
    }
    number_after(digits)
}

// The range between two numbers.
fn ranged(low: Option<u32>, high: Option<u32>) -> Result<Part, Reason>
    ensures { result ≡ ranged low high }
{
    match (low, high) {
        (Some(low), Some(high)) if low <= high => Ok(Part::Range(low, high)),
        _ => Err(Reason::BadRange),
    }
}

// The range that is before and behind the first hyphen.
fn range_of(text: &[u8], hyphen: usize) -> Result<Part, Reason>
    requires { hyphen < length text.now }
    ensures { result ≡ ranged (number_of (take hyphen text.now)) (number_of (drop (hyphen + 1) text.now)) }
{
    ranged(number_of(&text[..hyphen]), number_of(&text[hyphen + 1..]))
}

// Whether the first byte is a digit.
fn begins_in_digit(text: &[u8]) -> bool
    ensures { result ≡ begins_in_digit text.now }
{
    match text.first() {
        Some(&byte) => is_digit(byte),
        None => false,
    }
}

// The keyword that a word is; behind a field of numbers it may be a range.
fn plain_part(numbered: bool, text: &[u8]) -> Result<Part, Reason>
    ensures { result ≡ plain_part numbered text.now }
{
    let hyphen = run_before(b'-', text);
    if numbered && begins_in_digit(text) && hyphen < text.len() {
        return range_of(text, hyphen);
    }
    Ok(Part::Keyword(name_of(text)?))
}

// The part that a word is that is in no parentheses, and is no sign and no switch.
fn word_part(lists: &[Name], numbered: bool, text: &[u8]) -> Result<Part, Reason>
    ensures { result ≡ word_part lists.now numbered text.now }
{
    if text == b"..".as_slice() {
        return Ok(Part::Again);
    }
    let colon = run_before(b':', text);
    if colon < text.len() {
        return field_of(lists, text, colon);
    }
    plain_part(numbered, text)
}

// The part that a word is, under these lists, behind a field of numbers or not.
#[tactic(auto, unfolding(crate::specs::Parts::part_of))]
fn part_of(lists: &[Name], numbered: bool, text: &[u8]) -> Result<Part, Reason>
    requires { list_all is_fine text.now ≡ true }
    ensures { result ≡ part_of lists.now numbered text.now }
{
    match text {
        [] => Err(Reason::NoName),
        [b'(', ..] => guide_of(text),
        [b'/', after @ ..] => switch_of(after),
        [byte, ..] => {
            if is_sign(*byte) {
                return Ok(sign_part(*byte));
            }
            word_part(lists, numbered, text)
        }
    }
}

/// The part that a word of a command is: `lists` are the names of the lists that stand above, and `numbered` is whether
/// the part before is a field that may be a number, behind which a word that begins in a digit and has a hyphen is a
/// range. BadByte where a byte is neither a blank nor one of 33 to 126; OpenGuide, NoName and LongWord of a guide word
/// without `)`, of no byte, of more than 39; NoName, BadWord and LongWord of any other name that is none; UnknownKind,
/// BadClass and ManyKinds of a field, BadRange of a range.
pub fn read_part(lists: &[Name], numbered: bool, text: &[u8]) -> Result<Part, Reason>
    ensures { result ≡ read_part lists.now numbered text.now }
{
    if !is_fine_text(text) {
        return Err(Reason::BadByte);
    }
    part_of(lists, numbered, text)
}
