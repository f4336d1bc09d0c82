// Quoted texts as long as the line.
ghost use Rattle.std.specs.Prelude.{◌≡◌, ◌+◌, ◌≤◌, ◌++◌, drop, length};
ghost use Rattle.std.specs.Str.{IsAscii};
ghost use Rattle.cm_fields.specs.Quoted.{long_quoted, unquoted};

use crate::quotes::{after_byte, by_closing_of, closing_from};
use crate::trial::said;
use crate::{Code, Try};
use arrayvec::ArrayVec;
use cm_text::{LINE_LIMIT, TEXT_LIMIT};

/// A quoted text (.CMQST) as `quoted` takes it, which may write as many bytes as a line has. Refused with NotQuoted
/// where no quote stands, with NoQuote where the line ends or is continued first.
pub fn long_quoted(text: &[u8], at: usize) -> Try
    requires short { length text.now ≤ TEXT_LIMIT }
    requires place { at ≤ length text.now }
    ensures { result ≡ long_quoted (drop at text.now) at }
{
    match &text[at..] {
        [] => Try::More,
        [b'"', inside @ ..] => by_closing_of(LINE_LIMIT, at, closing_from(0, 0, inside)),
        _ => said(at, 0, 1, Err(Code::NotQuoted)),
    }
}

/// All that a quoted text says (.CMQST), of what is between its outer quotes, as the span of its value gives it: a
/// quote that stands twice is one.
pub fn unquote(text: &[u8]) -> ArrayVec<u8, TEXT_LIMIT>
    requires short { length text.now ≤ TEXT_LIMIT }
    requires ascii { IsAscii text.now }
    ensures { result.items ≡ unquoted text.now }
{
    let mut bytes = ArrayVec::new();
    push_all(&mut bytes, text);
    bytes
}

// Puts what a quoted text says after other bytes.
#[tactic(auto, using(cm_lists::proofs::Ascii::IsAscii_rest, crate::proofs::QuotedNames::said_after, crate::proofs::QuotedNames::nothing_said))]
fn push_all(bytes: &mut ArrayVec<u8, TEXT_LIMIT>, text: &[u8])
    requires ascii { IsAscii text.now }
    requires room { length bytes.old.items + length text.now ≤ TEXT_LIMIT }
    ensures { bytes.new.items ≡ bytes.old.items ++ unquoted text.now }
{
    match text {
        [] => {}
        [byte, more @ ..] => {
            bytes.push(*byte);
            push_all(bytes, after_byte(*byte, more));
        }
    }
}
