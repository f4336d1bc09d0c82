// Quoted texts.
ghost use Rattle.std.specs.Prelude.{◌≡◌, ◌+◌, ◌≤◌, ◌∷◌, ◌++◌, drop, length, take};
ghost use Rattle.std.specs.Str.{IsAscii};
ghost use Rattle.cm_fields.specs.Quoted.{IsWithin, by_closing_of, closing, quoted, unquoted};

use crate::trial::{said, span_of};
use crate::{Code, Try, Value};
use cm_text::{JOIN, NAME_LIMIT, Name, TEXT_LIMIT};

// How the text after an opening quote goes on.
pub(crate) enum Closing {
    // The closing quote is after so many bytes, which write so many.
    Closed { size: usize, written: usize },
    // The line, or a row of it, ends after so many bytes.
    Cut(usize),
    // The text ends before that is known.
    Unknown,
}

// How the text after an opening quote goes on, after so many bytes of it, which write so many.
#[tactic(auto, using(crate::proofs::QuotedTexts::plain_passed, crate::proofs::QuotedTexts::quote_passed))]
pub(crate) fn closing_from(size: usize, written: usize, inside: &[u8]) -> Closing
    requires size { size + length inside.now ≤ TEXT_LIMIT }
    requires written { written ≤ size }
    ensures value { result ≡ closing size written inside.now }
    ensures within { IsWithin (size + length inside.now) result }
{
    match inside {
        [] => Closing::Unknown,
        [b'\r' | JOIN, ..] => Closing::Cut(size),
        [byte, more @ ..] if *byte != b'"' => closing_from(size + 1, written + 1, more),
        [_] => Closing::Unknown,
        [_, b'"', more @ ..] => closing_from(size + 2, written + 1, more),
        _ => Closing::Closed { size, written },
    }
}

// What a text says that begins with a quote and writes at most so many bytes, by how it goes on.
pub(crate) fn by_closing_of(limit: usize, at: usize, found: Closing) -> Try
    requires within { IsWithin TEXT_LIMIT found }
    requires place { at ≤ TEXT_LIMIT }
    ensures { result ≡ by_closing_of limit at found }
{
    match found {
        Closing::Closed { size, written } => {
            let decision = if written <= limit {
                Ok(Value::Quoted(span_of(at + 1, size)))
            } else {
                Err(Code::FieldLong)
            };
            said(at, size + 2, size + 3, decision)
        }
        Closing::Cut(size) => said(at, size, size + 2, Err(Code::NoQuote)),
        Closing::Unknown => Try::More,
    }
}

/// A quoted text (.CMQST): from a quote to a quote that no quote follows; a quote inside stands twice. Refused
/// with NotQuoted where no quote stands, with NoQuote where the line ends or is continued first, with FieldLong
/// where it writes more than 39 bytes.
pub fn quoted(text: &[u8], at: usize) -> Try
    requires short { length text.now ≤ TEXT_LIMIT }
    requires place { at ≤ length text.now }
    // [quoted-text]
    ensures { result ≡ quoted (drop at text.now) at }
{
    match &text[at..] {
        [] => Try::More,
        [b'"', inside @ ..] => by_closing_of(NAME_LIMIT, at, closing_from(0, 0, inside)),
        _ => said(at, 0, 1, Err(Code::NotQuoted)),
    }
}

/// What a quoted text says (.CMQST), of what is between its outer quotes, as the span of its value gives it: a
/// quote that stands twice is one. At most 39 bytes of it, and a quoted text that is taken says no more.
pub fn unquoted(text: &[u8]) -> Name
    requires { IsAscii text.now }
    ensures { result ≡ take NAME_LIMIT (unquoted text.now) }
{
    let mut name = Name::new("");
    push_unquoted(&mut name, text);
    name
}

// Puts what a quoted text says after a name, as far as it fits.
#[tactic(auto, using(cm_lists::proofs::Ascii::IsAscii_rest, crate::proofs::QuotedNames::pushed_within, crate::proofs::QuotedNames::nothing_pushed))]
fn push_unquoted(name: &mut Name, text: &[u8])
    requires ascii { IsAscii text.now }
    requires within { length name.old ≤ NAME_LIMIT }
    ensures { name.new ≡ take NAME_LIMIT (name.old ++ unquoted text.now) }
{
    match text {
        [] => {}
        [byte, more @ ..] => {
            name.push(*byte);
            push_unquoted(name, after_byte(*byte, more));
        }
    }
}

// What is left of a quoted text after a byte, where this goes on: a quote that stands twice is passed whole.
#[tactic(auto, using(cm_lists::proofs::Ascii::IsAscii_rest, crate::proofs::QuotedNames::plain_passed, crate::proofs::QuotedNames::quote_passed, crate::proofs::QuotedNames::lone_quote_passed, crate::proofs::QuotedNames::last_passed))]
pub(crate) fn after_byte(byte: u8, more: &[u8]) -> &[u8]
    requires { IsAscii more.now }
    ensures said { unquoted (byte ∷ more.now) ≡ byte ∷ unquoted result.now }
    ensures ascii { IsAscii result.now }
    ensures shorter { length result.now ≤ length more.now }
{
    if byte != b'"' {
        return more;
    }
    match more {
        [] => more,
        [b'"', rest @ ..] => rest,
        [_, ..] => more,
    }
}
