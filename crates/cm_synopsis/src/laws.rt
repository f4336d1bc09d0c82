//! Laws of the language.
ghost use Rattle.std.specs.Prelude.{◌≡◌, ℕ, List, length};
ghost use Rattle.cm_synopsis.specs.Words.{AreApart, words};
ghost use Rattle.cm_synopsis.specs.declared.field.TheConstants.{KIND_LIMIT};
ghost use Rattle.cm_synopsis.specs.declared.language.TheConstants.{TEXT_SIZE_LIMIT};
ghost use Rattle.cm_synopsis.specs.declared.line.TheConstants.{HELP_WORD_LIMIT, LIST_LIMIT};
ghost use Rattle.cm_synopsis.specs.declared.opening.TheConstants.{BRACKET_LIMIT};
ghost use Rattle.cm_synopsis.specs.declared.part.TheConstants.{NUMBER_LIMIT};

/// A field has at most 8 kinds, at most 16 brackets are open at once, and a number of a range is at most 4294967295. A
/// text has at most 1,048,576 bytes and 200 lists, and at most 16 keywords are before a help.
pub fn these_are_the_numbers()
    ensures kinds { KIND_LIMIT ≡ 8 }
    ensures brackets { BRACKET_LIMIT ≡ 16 }
    ensures numbers { NUMBER_LIMIT ≡ 4294967295 }
    ensures bytes { TEXT_SIZE_LIMIT ≡ 1048576 }
    ensures lists { LIST_LIMIT ≡ 200 }
    ensures keywords { HELP_WORD_LIMIT ≡ 16 }
{}

/// Each word of a line has a byte at least and ends within the line, and begins at no place before the end of the one
/// before it.
pub fn a_word_stands_within_its_line()
    ensures { (line : List ℕ) → AreApart 0 (length line) (words line) }
{}
