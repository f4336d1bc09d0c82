//! Laws of dates.
ghost use Rattle.std.specs.Prelude.{◌≡◌, ◌+◌, ℕ, ℤ, pos, List, ◌∷◌, ◌++◌, length, false};
ghost use Rattle.jiff_core.specs.Calendar.{IsBetween};
ghost use Rattle.cm_text.specs.Bytes.{is_word};
ghost use Rattle.cm_fields.specs.Finish.{DecidesFinished};
ghost use Rattle.cm_fields.specs.Local.{IsLocal};
ghost use Rattle.cm_fields.specs.declared.trial.Try.TheVariants.{Accept};
ghost use Rattle.cm_fields.specs.declared.value.Value.TheVariants.{Date};
ghost use Rattle.cm_dates.specs.Date.{date};
ghost use Rattle.cm_dates.specs.DayText.{IsDayText, day_text};
ghost use Rattle.cm_dates.specs.declared.written.TheConstants.{DAY_LIMIT, DAY_TEXT_LIMIT};

/// What a trial decides on the first bytes of a text it decides on every text that begins with them, with the
/// same number of bytes looked at; so a decision on a text is the decision on every longer text.
pub fn a_date_is_local()
    ensures { IsLocal date }
{}

/// A trial of a finished text is a decision, and the end of the line is no part of a field.
pub fn a_finished_date_is_decided()
    ensures { DecidesFinished date }
{}

/// The text of a day, with a byte after it that is no part of a word, is read as that day.
pub fn text_is_read()
    ensures { (day : ℤ) → (text more : List ℕ) → (stop at : ℕ) → IsBetween (pos 0) DAY_LIMIT day
        → IsDayText day text → is_word stop ≡ false
        → date (text ++ stop ∷ more) at ≡ Accept (Date day) (length text + 1) (at + length text) }
{}

/// Each day from 1-JAN-1970 to 31-DEC-2099 has its text.
pub fn a_day_has_its_text()
    ensures { (day : ℤ) → IsBetween (pos 0) DAY_LIMIT day → IsDayText day (day_text day) }
{}

/// A day has one text.
pub fn a_day_has_one_text()
    ensures { (day : ℤ) → (text other : List ℕ) → IsDayText day text → IsDayText day other
        → text ≡ other }
{}

/// The last day is 31-DEC-2099, and the text of a day has at most 11 bytes.
pub fn these_are_the_numbers()
    ensures days { DAY_LIMIT ≡ pos 47481 }
    ensures texts { DAY_TEXT_LIMIT ≡ 11 }
{}
