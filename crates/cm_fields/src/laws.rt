//! Laws of the field functions.
ghost use Rattle.std.specs.Prelude.{◌≡◌, ℕ, ◌<◌, ◌≤◌, Bool, List, ◌++◌, drop, length, None, Some, false, true};
ghost use Rattle.cm_text.specs.ByteSets.{has_byte};
ghost use Rattle.cm_text.specs.declared.name.TheConstants.{NAME_LIMIT};
ghost use Rattle.cm_fields.specs.Code.{code_number, code_text, is_own};
ghost use Rattle.cm_fields.specs.Finish.{DecidesFinished, has_no_end};
ghost use Rattle.cm_fields.specs.Local.{IsLocal};
ghost use Rattle.cm_fields.specs.Mark.{comma, confirm};
ghost use Rattle.cm_fields.specs.BeforeField.{IsOpen, IsPast};
ghost use Rattle.cm_fields.specs.Numbers.{is_numbers, range_text};
ghost use Rattle.cm_fields.specs.Numeral.{numeral};
ghost use Rattle.cm_fields.specs.Phrase.{noise, token};
ghost use Rattle.cm_fields.specs.Quoted.{long_quoted, quoted};
ghost use Rattle.cm_fields.specs.Reason.{is_reason_text};
ghost use Rattle.cm_fields.specs.Run.{number, run_field, word};
ghost use Rattle.cm_fields.specs.Skip.{skip};
ghost use Rattle.cm_fields.specs.Text.{text_field};
ghost use Rattle.cm_fields.specs.declared.code.Code.{Code};
ghost use Rattle.cm_fields.specs.declared.digits.TheConstants.{NUMBER_LIMIT};
ghost use Rattle.cm_fields.specs.declared.numbers.Numbers.{Numbers};
ghost use Rattle.cm_fields.specs.declared.reason.TheConstants.{OWN_NUMBER};

/// What a trial decides on the first bytes of a text it decides on every text that begins with them, with the
/// same number of bytes looked at; so a decision on a text is the decision on every longer text.
pub fn trials_are_local()
    ensures noise { (phrase : List ℕ) → IsLocal (noise phrase) }
    ensures token { (phrase : List ℕ) → IsLocal (token phrase) }
    ensures number { IsLocal number }
    ensures numeral { (numbers : Numbers) → IsLocal (numeral numbers) }
    ensures word { IsLocal word }
    ensures run { (set : ℕ) → IsLocal (run_field set) }
    ensures quoted { IsLocal quoted }
    ensures long_quoted { IsLocal long_quoted }
    ensures text { IsLocal text_field }
    ensures comma { IsLocal comma }
    ensures confirm { IsLocal confirm }
{}

/// A place that skip gives before the end of a text is the one that it gives on every longer text.
pub fn skip_stays()
    ensures { (raw : Bool) → (text : List ℕ) → (more : List ℕ) → (at : ℕ) → (place : ℕ)
        → skip raw text at ≡ Some place → place < length text → skip raw (text ++ more) at ≡ Some place }
{}

/// Skip gives a place exactly where blanks and whole comments reach to it and neither is after them, and
/// none exactly where a comment is after them that nothing ends.
pub fn skip_passes_blanks_and_comments()
    ensures past { (raw : Bool) → (text : List ℕ) → (at : ℕ) → (place : ℕ)
        → skip raw text at ≡ Some place → IsPast raw (drop at text) at place }
    ensures only_past { (raw : Bool) → (text : List ℕ) → (at : ℕ) → (place : ℕ)
        → IsPast raw (drop at text) at place → skip raw text at ≡ Some place }
    ensures open_comment { (raw : Bool) → (text : List ℕ) → (at : ℕ)
        → skip raw text at ≡ None → IsOpen raw (drop at text) }
    ensures only_open { (raw : Bool) → (text : List ℕ) → (at : ℕ)
        → IsOpen raw (drop at text) → skip raw text at ≡ None }
{}

/// A trial of a finished text is a decision, and the end of the line is no part of a field.
pub fn finished_texts_are_decided()
    ensures noise { (phrase : List ℕ) → DecidesFinished (noise phrase) }
    ensures token { (phrase : List ℕ) → has_no_end phrase ≡ true → DecidesFinished (token phrase) }
    ensures number { DecidesFinished number }
    ensures numeral { (numbers : Numbers) → DecidesFinished (numeral numbers) }
    ensures word { DecidesFinished word }
    ensures run { (set : ℕ) → has_byte set 13 ≡ false → DecidesFinished (run_field set) }
    ensures quoted { DecidesFinished quoted }
    ensures long_quoted { DecidesFinished long_quoted }
    ensures text { DecidesFinished text_field }
    ensures comma { DecidesFinished comma }
    ensures confirm { DecidesFinished confirm }
{}

/// A code of the library has a number below those of an application's own, and a text that is not empty, has at most
/// 39 bytes, and prints.
pub fn library_codes_are_below_own_ones()
    ensures numbers { (code : Code) → is_own code ≡ false → code_number code < OWN_NUMBER }
    ensures texts { (code : Code) → is_own code ≡ false → is_reason_text (code_text code) ≡ true }
{}

/// The text that tells the range of numbers that a field may be is shown whole.
pub fn ranges_are_told_whole()
    ensures { (numbers : Numbers) → is_numbers numbers ≡ true → length (range_text numbers) ≤ NAME_LIMIT }
{}

/// The last number is the half of a word's range. An application's own codes begin at 128.
pub fn these_are_the_numbers()
    ensures numbers { NUMBER_LIMIT ≡ 34359738367 }
    ensures own { OWN_NUMBER ≡ 128 }
{}
