// A date, and what its parts say.
// The words are std's first: before_first, after_first, digits_value, decimal. A cut at a byte is split_at at the
// length of a take_while, alone in a function, and then the pattern [_, after @ ..].
ghost use Rattle.std.specs.Prelude.{◌≡◌, ◌≤◌, true, drop, length};
ghost use Rattle.std.specs.Char.{is_ascii_digit};
ghost use Rattle.std.specs.Int.{IsInRange};
ghost use Rattle.std.specs.List.{after_first, before_first, list_all, position_or_len};
ghost use Rattle.std.specs.Str.Parse.{digits_value};
ghost use Rattle.cm_dates.specs.Date.{date, date_of, day_in, is_hyphen, is_number, year_of};

use crate::calendar::day_of;
use crate::months::month_of;
use cm_fields::{Code, Try, Value, are_digits, said, value_of, word_run};
use cm_text::TEXT_LIMIT;
use jiff::civil;

/// A date (.CMTAD): a run of word bytes that are one or two digits, a hyphen, three letters of a month, a
/// hyphen, and two or four digits, two for a year of 19yy. Refused with BadDate where the run is nothing of
/// the kind or the day is 0, else with YearRange where the year is not in 1970 to 2099, else with BadDate
/// where the month has no such day.
pub fn date(text: &[u8], at: usize) -> Try
    requires short { length text.now ≤ TEXT_LIMIT }
    requires place { at ≤ length text.now }
    // [date]
    ensures { result ≡ date (drop at text.now) at }
{
    let rest = &text[at..];
    let size = word_run(rest);
    if size == rest.len() {
        return Try::More;
    }
    said(at, size, size + 1, date_of(&rest[..size]))
}

// What a run says as a date.
#[tactic(auto, unfolding(crate::specs::Date::date_of))]
fn date_of(run: &[u8]) -> Result<Value, Code>
    ensures { result ≡ date_of run.now }
{
    let (day, rest) = split(run);
    let (letters, year) = split(rest);
    let Some(month) = month_of(letters) else {
        return Err(Code::BadDate);
    };
    if !is_number(day, 1, 2) || !is_number(year, 2, 4) {
        return Err(Code::BadDate);
    }
    let day = number_of(day);
    if day == 0 {
        return Err(Code::BadDate);
    }
    day_in(year_of(year), month, day)
}

// The bytes before the first hyphen, and those after it; all of them, and none, where there is no hyphen.
fn split(run: &[u8]) -> (&[u8], &[u8])
    ensures before { result.0.now ≡ before_first is_hyphen run.now }
    ensures after { result.1.now ≡ after_first is_hyphen run.now }
{
    let (before, rest) = run.split_at(part_size(run));
    match rest {
        [_, after @ ..] => (before, after),
        [] => (before, rest),
    }
}

// How many bytes are before the first hyphen.
fn part_size(run: &[u8]) -> usize
    ensures value { result ≡ position_or_len is_hyphen run.now }
    ensures within { result ≤ length run.now }
{
    run.iter().take_while(|byte| **byte != b'-').count()
}

// Whether these are digits alone, of one of the two numbers.
fn is_number(digits: &[u8], few: usize, many: usize) -> bool
    ensures { result ≡ is_number few many digits.now }
{
    (digits.len() == few || digits.len() == many) && are_digits(digits)
}

// The number that at most four digits write.
#[tactic(auto, using(cm_lists::proofs::Digits::value_of_four, cm_lists::proofs::Digits::value_of_two))]
fn number_of(digits: &[u8]) -> u16
    requires digits { list_all is_ascii_digit digits.now ≡ true }
    requires few { length digits.now ≤ 4 }
    ensures value { result ≡ digits_value 10 digits.now }
    ensures bound { result ≤ 9999 }
    ensures two { length digits.now ≤ 2 → result ≤ 99 }
{
    match value_of(digits, 9_999) {
        Some(value) => value as u16,
        None => unreachable!(),
    }
}

// The year that two or four digits mean.
fn year_of(digits: &[u8]) -> u16
    requires digits { list_all is_ascii_digit digits.now ≡ true }
    requires few { length digits.now ≤ 4 }
    ensures value { result ≡ year_of digits.now }
    ensures bound { result ≤ 9999 }
{
    let year = number_of(digits);
    if digits.len() == 2 { 1900 + year } else { year }
}

// The day of a year, a month and a day of the month.
#[tactic(auto, unfolding(crate::specs::Date::day_in))]
fn day_in(year: u16, month: u8, day: u16) -> Result<Value, Code>
    requires year { year ≤ 9999 }
    requires month { IsInRange 1 12 month }
    requires day { IsInRange 1 99 day }
    ensures { result ≡ day_in year month day }
{
    if !(1970..=2099).contains(&year) {
        return Err(Code::YearRange);
    }
    match civil::Date::new(year as i16, month as i8, day as i8) {
        Ok(date) => Ok(Value::Date(day_of(date))),
        Err(_) => Err(Code::BadDate),
    }
}
