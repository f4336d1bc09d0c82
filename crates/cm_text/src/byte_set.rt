// Sets of bytes.
ghost use Rattle.std.specs.Prelude.{◌≡◌, ◌<◌, ◌^◌, ◌&&◌, ◌||◌, ◌==◌, ◌↔◌, ℕ, Bool, IsTrue, false, nat_le, true};
ghost use Rattle.std.specs.List.{list_all, list_any};
ghost use Rattle.cm_text.specs.Bytes.{is_name, is_word};
ghost use Rattle.cm_text.specs.ByteSets.{has_byte, is_empty, is_low, names, set_of, with_byte, with_range, words};

use std::marker::Model;

/// A set of bytes below 128. Contracts see the number whose bits of value 1 are at the places of its bytes.
#[derive(Clone, Copy, Debug, PartialEq, Eq)]
pub struct ByteSet {
    bits: u128,
}

impl Model for ByteSet {
    ghost use Rattle.std.specs.Prelude.{ℕ, ◌<◌, ◌^◌};

    ghost Value = { ℕ };

    ghost view = { λ set. set.bits };

    ghost inverse = { λ bits. record { bits = bits } };

    ghost invariant = { λ set. set.bits < 2 ^ 128 };
}

impl ByteSet {
    /// The set of these bytes.
    #[tactic(auto, unfolding(crate::specs::ByteSets::set_of))]
    pub fn of(bytes: &[u8]) -> ByteSet
        requires { list_all is_low bytes.now ≡ true }
        ensures value { result ≡ set_of bytes.now }
        ensures bytes { (byte : ℕ) → has_byte result byte ≡ list_any (λ it. byte == it) bytes.now }
    {
        let mut set = ByteSet { bits: 0 };
        for byte in bytes {
            set = set.with_byte(*byte);
        }
        set
    }

    // The set with one byte more.
    fn with_byte(self, byte: u8) -> ByteSet
        requires { byte < 128 }
        ensures { result ≡ with_byte self byte }
    {
        ByteSet {
            bits: self.bits | 1 << byte,
        }
    }

    /// The set with each byte from the first to the last more; with none where the first is above the last.
    pub fn with_range(self, first: u8, last: u8) -> ByteSet
        requires { last < 128 }
        ensures value { result ≡ with_range self first last }
        ensures bytes { (byte : ℕ)
            → has_byte result byte ≡ (has_byte self byte || (nat_le first byte && nat_le byte last)) }
    {
        if first > last {
            return self;
        }
        ByteSet {
            bits: self.bits | ((u128::MAX >> (127 - last)) - ((1 << first) - 1)),
        }
    }

    /// Whether a byte is in the set.
    #[tactic(auto, using(crate::proofs::SetBits::byte_is, crate::proofs::SetBits::byte_above))]
    pub fn has(self, byte: u8) -> bool
        ensures { result ≡ has_byte self byte }
    {
        byte < 128 && (self.bits >> byte) & 1 == 1
    }

    /// Whether no byte is in the set.
    pub fn is_empty(self) -> bool
        ensures value { result ≡ is_empty self }
        ensures none { IsTrue result ↔ ((byte : ℕ) → has_byte self byte ≡ false) }
    {
        self.bits == 0
    }

    /// The set of the bytes of words: letters, digits and `-`.
    #[tactic(auto, unfolding(crate::specs::ByteSets::words))]
    pub fn words() -> ByteSet
        ensures value { result ≡ words }
        ensures bytes { (byte : ℕ) → has_byte result byte ≡ is_word byte }
    {
        ByteSet::of(b"-")
            .with_range(b'0', b'9')
            .with_range(b'A', b'Z')
            .with_range(b'a', b'z')
    }

    /// The set of the bytes of names: those of words, `$` and `_`.
    #[tactic(auto, unfolding(crate::specs::ByteSets::names))]
    pub fn names() -> ByteSet
        ensures value { result ≡ names }
        ensures bytes { (byte : ℕ) → has_byte result byte ≡ is_name byte }
    {
        ByteSet::of(b"-$_")
            .with_range(b'0', b'9')
            .with_range(b'A', b'Z')
            .with_range(b'a', b'z')
    }
}
