// Dates, and their numbers of days, 0 for 1-JAN-1970.
ghost use Rattle.std.specs.Prelude.{◌≡◌, pos};
ghost use Rattle.jiff.specs.Words.{IsBetween, epoch_day};
ghost use Rattle.cm_dates.specs.declared.written.TheConstants.{DAY_LIMIT};

use jiff::ToSpan;
use jiff::civil::{self, Date};

// The day with number 0.
fn first_day() -> Date
    ensures { epoch_day result ≡ pos 0 }
{
    civil::date(1970, 1, 1)
}

// The number of a date.
pub(crate) fn day_of(date: Date) -> i32
    requires { IsBetween (pos 0) DAY_LIMIT (epoch_day date) }
    ensures { result ≡ epoch_day date }
{
    (first_day().duration_until(date).as_hours() / 24) as i32
}

// The date with a number.
pub(crate) fn date_of(day: i32) -> Date
    requires { IsBetween (pos 0) DAY_LIMIT day }
    ensures day { epoch_day result ≡ day }
    ensures year { IsBetween (pos 1970) (pos 2099) result.year }
{
    match first_day().checked_add(i64::from(day).days()) {
        Ok(date) => date,
        Err(_) => unreachable!(),
    }
}
