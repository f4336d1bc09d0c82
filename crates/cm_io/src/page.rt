// A page: bytes that are held, and then put at once.
ghost use Rattle.std.specs.Prelude.{◌≡◌, ◌+◌, ◌<◌, ◌≤◌, ◌++◌, ◌∷◌, [], length};
ghost use Rattle.std.specs.Fmt.{decimal};

use arrayvec::ArrayVec;
use cm_text::DIGIT_LIMIT;
use std::marker::Model;

// The most bytes of a page.
pub(crate) const PAGE_LIMIT: usize = 256;

// Bytes that are held to be put at once, at most 256. Contracts see them.
#[derive(Drop)]
pub(crate) struct Page {
    bytes: ArrayVec<u8, PAGE_LIMIT>,
}

impl Model for Page {
    ghost use Rattle.std.specs.Prelude.{ℕ, List};

    ghost Value = { List ℕ };

    ghost view = { λ page. page.bytes.items };
}

impl Page {
    // A page with no bytes.
    pub(crate) fn new() -> Page
        ensures { result ≡ [] }
    {
        Page {
            bytes: ArrayVec::new(),
        }
    }

    // The bytes.
    pub(crate) fn as_slice(&self) -> &[u8]
        ensures value { result.now ≡ self.now }
        ensures within { length result.now ≤ PAGE_LIMIT }
    {
        self.bytes.as_slice()
    }

    // How many more bytes fit.
    pub(crate) fn room(&self) -> usize
        ensures { result + length self.now ≡ PAGE_LIMIT }
    {
        self.bytes.remaining_capacity()
    }

    // Takes all bytes from the page.
    pub(crate) fn clear(&mut self)
        ensures { self.new ≡ [] }
    {
        self.bytes.clear();
    }

    // Puts some bytes after the others. There must be room.
    #[inline]
    pub(crate) fn put(&mut self, bytes: &[u8])
        requires { length self.old + length bytes.now ≤ PAGE_LIMIT }
        ensures { self.new ≡ self.old ++ bytes.now }
    {
        let _ = self.bytes.try_extend_from_slice(bytes);
    }

    // Puts the decimal digits of a number after the others, with no zero before them. There must be room for the
    // longest number.
    #[tactic(auto, using(cm_lists::proofs::Digits::decimal_fits))]
    pub(crate) fn put_decimal(&mut self, number: u64)
        requires { length self.old + DIGIT_LIMIT ≤ PAGE_LIMIT }
        ensures value { self.new ≡ self.old ++ decimal number }
        ensures size { length (decimal number) ≤ DIGIT_LIMIT }
    {
        push_digits(number, &mut self.bytes);
    }
}

// Puts the digits of a number after other bytes, where there is room for just these. Of two digits, as most numbers
// of a log have, none is put by a call of its own.
#[tactic(auto, using(std::proofs::lemmas::Fmt::decimal_digit))]
fn push_digits(number: u64, bytes: &mut ArrayVec<u8, PAGE_LIMIT>)
    requires { length bytes.old.items + length (decimal number) ≤ PAGE_LIMIT }
    ensures { bytes.new.items ≡ bytes.old.items ++ decimal number }
{
    if number < 10 {
        return push_digit(number, bytes);
    }
    if number < 100 {
        push_digit(number / 10, bytes);
        return push_digit(number % 10, bytes);
    }
    push_digits(number / 10, bytes);
    push_digit(number % 10, bytes);
}

// Puts one digit after other bytes.
fn push_digit(digit: u64, bytes: &mut ArrayVec<u8, PAGE_LIMIT>)
    requires digit { digit < 10 }
    requires room { length bytes.old.items < PAGE_LIMIT }
    ensures digit { bytes.new.items ≡ bytes.old.items ++ (48 + digit) ∷ [] }
    ensures size { length bytes.new.items ≡ length bytes.old.items + 1 }
{
    bytes.push(b'0' + digit as u8);
}
