//! Laws of texts.
ghost use Rattle.std.specs.Prelude.{◌≡◌, ℕ};
ghost use Rattle.cm_text.specs.ByteSets.{has_byte};
ghost use Rattle.cm_text.specs.declared.name.TheConstants.{NAME_LIMIT};
ghost use Rattle.cm_text.specs.declared.text.TheConstants.{JOIN, LINE_LIMIT, TEXT_LIMIT};

/// A line has at most 255 bytes, a text one more, and a name at most 39. The join byte is 10.
pub fn these_are_the_numbers()
    ensures lines { LINE_LIMIT ≡ 255 }
    ensures texts { TEXT_LIMIT ≡ 256 }
    ensures names { NAME_LIMIT ≡ 39 }
    ensures joins { JOIN ≡ 10 }
{}

/// A set is what its bytes are: two that have the same bytes are one.
pub fn sets_are_their_bytes()
    ensures { (set other : ℕ) → ((byte : ℕ) → has_byte set byte ≡ has_byte other byte)
        → set ≡ other }
{}
