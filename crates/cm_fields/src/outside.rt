// Why a number outside of a range is refused.
ghost use Rattle.std.specs.Prelude.{◌≡◌, ◌≤◌, length, take, true};
ghost use Rattle.cm_fields.specs.Numbers.{range_reason};
ghost use Rattle.cm_fields.specs.Reason.{is_reason_text};

use crate::numbers::{Numbers, range_text};
use crate::reason::ascii;
use cm_text::{NAME_LIMIT, pad};
use std::fmt;
use std::marker::Model;

/// Which numbers a field may be that another number was typed for, and the text that tells their range, which lies in
/// the value itself. Contracts see the numbers.
#[derive(Clone, Copy, PartialEq, Eq)]
pub struct Outside {
    numbers: Numbers,
    size: u8,
    // Zeros are after the text.
    bytes: [u8; NAME_LIMIT],
}

impl Model for Outside {
    ghost use Rattle.std.specs.Prelude.{◌≡◌, length};
    ghost use Rattle.std.proofs.Common.{sym};
    ghost use Rattle.cm_text.specs.Padding.{padded};
    ghost use Rattle.cm_fields.specs.Numbers.{range_reason};
    ghost use Rattle.cm_fields.specs.declared.numbers.Numbers.{Numbers as NumbersView};

    ghost Value = { NumbersView };

    ghost view = { λ outside. outside.numbers };

    ghost invariant = { λ outside. (outside.size ≡ length (range_reason outside.numbers))
        × (outside.bytes ≡ padded (range_reason outside.numbers)) };

    ghost inverse = { λ numbers. record {
      numbers = numbers;
      size = length (range_reason numbers);
      bytes = padded (range_reason numbers);
    } };

    ghost inverse_ok = { λ outside holds i. record {
      numbers = outside.numbers;
      size = sym holds.0 i;
      bytes = sym holds.1 i;
    } };
}

// The first 39 bytes.
fn first_bytes(text: &[u8]) -> &[u8]
    ensures value { result.now ≡ take NAME_LIMIT text.now }
    ensures within { length result.now ≤ NAME_LIMIT }
{
    if text.len() <= NAME_LIMIT {
        text
    } else {
        &text[..NAME_LIMIT]
    }
}

impl Outside {
    /// Why a number is refused that is none of these.
    pub fn new(numbers: Numbers) -> Outside
        ensures { result ≡ numbers }
    {
        let text = range_text(&numbers);
        let told = first_bytes(text.as_bytes());
        Outside {
            numbers,
            size: told.len() as u8,
            bytes: pad(told),
        }
    }

    /// The numbers that the field may be.
    pub fn numbers(&self) -> Numbers
        ensures { result ≡ self.now }
    {
        self.numbers
    }

    /// The text that a refused line shows, as `Must be 10 to 100000`: the ends are written in the radix.
    #[tactic(auto, using(crate::proofs::Outsides::range_reason_fits, crate::proofs::Outsides::range_reason_ascii, crate::proofs::Outsides::range_reason_whole, crate::proofs::Numerals::range_reason_shown))]
    pub fn text(&self) -> &str
        ensures value { result.now ≡ range_reason self.now }
        // It is not empty, has at most 39 bytes, and each of them prints.
        ensures shown { is_reason_text result.now ≡ true }
    {
        ascii(&self.bytes[..usize::from(self.size)])
    }
}

// The text alone.
impl fmt::Debug for Outside {
    fn fmt<W: fmt::Write>(&self, f: &mut fmt::Formatter<W>) -> fmt::Result {
        f.debug_tuple("Outside").field(&self.text()).finish()
    }
}
