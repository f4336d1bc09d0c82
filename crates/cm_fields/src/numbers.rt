// Which numbers a field may be, and how a number is written in a radix.
ghost use Rattle.std.specs.Prelude.{◌≡◌, ◌+◌, ◌<◌, ◌≤◌, ◌∷◌, ◌++◌, [], length, map, true};
ghost use Rattle.std.specs.Fmt.{digit_glyph};
ghost use Rattle.std.specs.Int.Digits.{digits_of};
ghost use Rattle.cm_fields.specs.Numbers.{base, is_in_limit, is_numbers, number_text, range_text, size_text};

use crate::digits::NUMBER_LIMIT;
use arrayvec::ArrayString;

/// The most bytes of a number of 64 bits in a radix: 22 octal digits after a minus.
pub const NUMBER_TEXT_LIMIT: usize = 23;

/// The most bytes of the text that tells a range.
pub(crate) const RANGE_TEXT_LIMIT: usize = 58;

/// The radix of a number (.CMNUM).
#[derive(Clone, Copy, Debug, PartialEq, Eq)]
pub enum Radix {
    /// 8.
    Octal,
    /// 10.
    Decimal,
    /// 16, whose digits from 10 on are letters.
    Hexadecimal,
}

/// Which numbers a field may be.
#[derive(Clone, Copy, Debug, PartialEq, Eq)]
pub struct Numbers {
    /// The radix that they are written in.
    pub radix: Radix,
    /// Whether a minus may stand before the digits.
    pub signed: bool,
    /// The least of them.
    pub least: i64,
    /// The last of them.
    pub most: i64,
}

// Whether a number has at most 35 bits, and a sign.
fn is_in_limit(number: i64) -> bool
    ensures { result ≡ is_in_limit number }
{
    number.unsigned_abs() <= NUMBER_LIMIT
}

impl Numbers {
    /// Whether a field may be these numbers: both ends are within 34,359,738,367 of 0, the least is not above the
    /// last, and where there is no sign it is not below 0.
    #[tactic(auto, unfolding(crate::specs::Numbers::is_numbers))]
    pub fn is_valid(&self) -> bool
        ensures { result ≡ is_numbers self.now }
    {
        is_in_limit(self.least)
            && is_in_limit(self.most)
            && self.least <= self.most
            && (self.signed || self.least >= 0)
    }
}

impl Radix {
    // The number that it is.
    pub(crate) fn base(self) -> u64
        ensures value { result ≡ base self }
        ensures least { 2 ≤ result }
        ensures most { result ≤ 16 }
    {
        match self {
            Radix::Octal => 8,
            Radix::Decimal => 10,
            Radix::Hexadecimal => 16,
        }
    }

    /// A number in this radix: its digits with no zero before them, letters in upper case, after a minus where it is
    /// below 0.
    #[tactic(auto, unfolding(crate::specs::Numbers::number_text), using(crate::proofs::Numerals::size_fits))]
    pub fn text(self, number: i64) -> ArrayString<NUMBER_TEXT_LIMIT>
        ensures value { result.bytes ≡ number_text self number }
        ensures size { length result.bytes ≤ NUMBER_TEXT_LIMIT }
    {
        let mut text = ArrayString::new();
        text.push_str(if number < 0 { "-" } else { "" });
        push_size(&mut text, self, number.unsigned_abs());
        text
    }
}

// Puts a number without its sign after a text.
#[tactic(auto, unfolding(crate::specs::Numbers::size_text))]
fn push_size(text: &mut ArrayString<NUMBER_TEXT_LIMIT>, radix: Radix, size: u64)
    requires { length text.old.bytes + length (size_text radix size) ≤ NUMBER_TEXT_LIMIT }
    ensures { text.new.bytes ≡ text.old.bytes ++ size_text radix size }
{
    if size == 0 {
        text.push('0');
    } else {
        push_digits(text, radix.base(), size);
    }
}

// Puts the digits of a number after a text, and none of 0.
fn push_digits(text: &mut ArrayString<NUMBER_TEXT_LIMIT>, base: u64, size: u64)
    requires room { length text.old.bytes + length (digits_of base size) ≤ NUMBER_TEXT_LIMIT }
    requires least { 2 ≤ base }
    requires most { base ≤ 16 }
    ensures { text.new.bytes ≡ text.old.bytes ++ map (digit_glyph true) (digits_of base size) }
{
    if size > 0 {
        push_digits(text, base, size / base);
        push_digit(text, size % base);
    }
}

// Puts one digit after a text.
fn push_digit(text: &mut ArrayString<NUMBER_TEXT_LIMIT>, digit: u64)
    requires room { length text.old.bytes < NUMBER_TEXT_LIMIT }
    requires digit { digit < 16 }
    ensures { text.new.bytes ≡ text.old.bytes ++ digit_glyph true digit ∷ [] }
{
    text.push(char::from(digit_glyph(digit as u8)));
}

// The byte of a digit.
fn digit_glyph(digit: u8) -> u8
    requires { digit < 16 }
    ensures value { result ≡ digit_glyph true digit }
    ensures ascii { result < 128 }
{
    if digit < 10 {
        b'0' + digit
    } else {
        b'A' + digit - 10
    }
}

/// The text that tells the range of some numbers, as `Must be 10 to 100000`.
#[tactic(auto, unfolding(crate::specs::Numbers::range_text))]
pub(crate) fn range_text(numbers: &Numbers) -> ArrayString<RANGE_TEXT_LIMIT>
    ensures { result.bytes ≡ range_text numbers.now }
{
    let mut text = ArrayString::new();
    text.push_str("Must be ");
    text.push_str(&numbers.radix.text(numbers.least));
    text.push_str(" to ");
    text.push_str(&numbers.radix.text(numbers.most));
    text
}
