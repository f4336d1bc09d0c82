// A day as it is shown.
// Into an ArrayString all goes by push_str, whose clause len is a number.
ghost use Rattle.std.specs.Prelude.{◌≡◌, ◌≤◌, pos};
ghost use Rattle.std.specs.Int.{IsInRange};
ghost use Rattle.jiff_core.specs.Calendar.{IsBetween};
ghost use Rattle.cm_dates.specs.DayText.{IsDayText, date_text, day_text};

use crate::calendar::date_of;
use crate::months::month_name;
use arrayvec::ArrayString;
use cm_text::decimal_digits;

/// The last day that a date field can have, 31-DEC-2099.
pub const DAY_LIMIT: i32 = 47_481;

/// The most bytes of the text of a day.
pub const DAY_TEXT_LIMIT: usize = 11;

/// The text of a day, 0 for 1-JAN-1970: the day of the month with no zero before it, the month in upper case,
/// and the year in four digits.
pub fn day_text(day: i32) -> ArrayString<DAY_TEXT_LIMIT>
    requires { IsBetween (pos 0) DAY_LIMIT day }
    ensures date { IsDayText day result.bytes }
    ensures text { result.bytes ≡ day_text day }
{
    let date = date_of(day);
    date_text(date.year() as u16, date.month() as u8, date.day() as u8)
}

// The text of a date.
#[tactic(auto, using(cm_lists::proofs::Digits::decimal_fits_two, cm_lists::proofs::Digits::decimal_fits_four))]
fn date_text(year: u16, month: u8, day: u8) -> ArrayString<DAY_TEXT_LIMIT>
    requires year { year ≤ 9999 }
    requires month { IsInRange 1 12 month }
    requires day { day ≤ 99 }
    ensures { result.bytes ≡ date_text year month day }
{
    let mut text = ArrayString::new();
    text.push_str(decimal_digits(u64::from(day)).as_str());
    text.push_str("-");
    text.push_str(month_name(month));
    text.push_str("-");
    text.push_str(decimal_digits(u64::from(year)).as_str());
    text
}
