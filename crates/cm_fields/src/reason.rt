// Reasons of an application's own.
ghost use Rattle.std.specs.Prelude.{◌≡◌, ◌≤◌, true};
ghost use Rattle.std.specs.List.{list_all};
ghost use Rattle.std.specs.Str.{IsAscii};
ghost use Rattle.cm_fields.specs.Reason.{is_printing, is_reason, is_reason_text, reason_of};

use cm_text::{NAME_LIMIT, pad};
use std::marker::Model;
use std::{fmt, str};

/// The least number of a reason of an application's own: those of the library are below it.
pub const OWN_NUMBER: u8 = 128;

/// Why an application refuses a field, a line or a command, by a number of its own for the log and a text of its own
/// for the screen. The text lies in the value itself, which is copied as a code is. Contracts see number and text.
#[derive(Clone, Copy, PartialEq, Eq)]
pub struct Reason {
    number: u8,
    size: u8,
    // Zeros are after the text.
    bytes: [u8; NAME_LIMIT],
}

impl Model for Reason {
    ghost use Rattle.std.specs.Prelude.{◌≡◌, ◌≤◌, length, take, true};
    ghost use Rattle.std.proofs.Common.{arith, length-take-le, sym};
    ghost use Rattle.cm_text.specs.declared.name.TheConstants.{NAME_LIMIT};
    ghost use Rattle.cm_text.specs.Padding.{padded};
    ghost use Rattle.cm_fields.specs.Reason.{ReasonView, is_reason};

    ghost Value = { ReasonView };

    ghost view = { λ reason. record { number = reason.number; text = take reason.size reason.bytes } };

    ghost invariant = { λ reason. (is_reason reason.number (take reason.size reason.bytes) ≡ true)
        × (reason.size ≤ NAME_LIMIT)
        × (length reason.bytes ≡ NAME_LIMIT)
        × (reason.bytes ≡ padded (take reason.size reason.bytes)) };

    ghost inverse = { λ reason. record {
      number = reason.number;
      size = length reason.text;
      bytes = padded reason.text;
    } };

    ghost inverse_ok = { λ reason holds i. record {
      number = reason.number;
      size = length-take-le reason.size reason.bytes (omega (arith, holds.1, holds.2)) i;
      bytes = sym holds.3 i;
    } };
}

// Whether all bytes of a text print.
fn all_print(text: &[u8]) -> bool
    ensures { result ≡ list_all is_printing text.now }
{
    text.iter().all(|byte| matches!(*byte, b' '..=b'~'))
}

// Whether a reason may have this text.
#[tactic(auto, unfolding(crate::specs::Reason::is_reason_text))]
fn is_reason_text(text: &[u8]) -> bool
    ensures { result ≡ is_reason_text text.now }
{
    !text.is_empty() && text.len() <= NAME_LIMIT && all_print(text)
}

// Whether a reason may have this number and this text.
#[tactic(auto, unfolding(crate::specs::Reason::is_reason))]
fn is_reason(number: u8, text: &[u8]) -> bool
    ensures { result ≡ is_reason number text.now }
{
    number >= OWN_NUMBER && is_reason_text(text)
}

// The text of ASCII bytes.
#[tactic(auto, using(cm_lists::proofs::Ascii::text_of_ascii))]
pub(crate) fn ascii(bytes: &[u8]) -> &str
    requires { IsAscii bytes.now }
    ensures { result.now ≡ bytes.now }
{
    match str::from_utf8(bytes) {
        Ok(text) => text,
        Err(_) => unreachable!(),
    }
}

impl Reason {
    /// The reason with this number and text. There is none where the number is below 128, or where the text is empty,
    /// has more than 39 bytes, or has a byte that does not print: one that is none of space to tilde.
    #[tactic(auto, using(crate::proofs::Reasons::reason_short))]
    pub fn new(number: u8, text: &str) -> Option<Reason>
        ensures { result ≡ reason_of number text.now }
    {
        let bytes = text.as_bytes();
        if !is_reason(number, bytes) {
            return None;
        }
        Some(Reason {
            number,
            size: bytes.len() as u8,
            bytes: pad(bytes),
        })
    }

    /// The reason with a number and a text that are known to be one's, as a program's own are, whose proof computes
    /// that.
    pub fn of(number: u8, text: &str) -> Reason
        requires { is_reason number text.now ≡ true }
        ensures { result ≡ record { number = number; text = text.now } }
    {
        Reason::new(number, text).unwrap()
    }

    /// The number that the log gives.
    #[tactic(auto, using(crate::proofs::Reasons::reason_number))]
    pub fn number(&self) -> u8
        ensures value { result ≡ self.now.number }
        ensures least { OWN_NUMBER ≤ result }
    {
        self.number
    }

    /// The text that a refused line shows.
    #[tactic(auto, using(crate::proofs::Reasons::reason_text, crate::proofs::Reasons::reason_ascii))]
    pub fn text(&self) -> &str
        ensures value { result.now ≡ self.now.text }
        // It is not empty, has at most 39 bytes, and each of them prints.
        ensures shown { is_reason_text result.now ≡ true }
    {
        ascii(&self.bytes[..usize::from(self.size)])
    }
}

// Without the zeros.
impl fmt::Debug for Reason {
    fn fmt<W: fmt::Write>(&self, f: &mut fmt::Formatter<W>) -> fmt::Result {
        f.debug_struct("Reason")
            .field("number", &self.number())
            .field("text", &self.text())
            .finish()
    }
}
