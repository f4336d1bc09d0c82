// The names of the months.
ghost use Rattle.std.specs.Prelude.{◌≡◌, IfSome, length};
ghost use Rattle.std.specs.Int.{IsInRange};
ghost use Rattle.cm_dates.specs.Date.{month_name, month_of};

use cm_text::equals;

// The first three letters of the name of a month, from 1 for January.
#[tactic(auto, unfolding(crate::specs::Date::month_name))]
pub(crate) fn month_name(month: u8) -> &'static str
    requires { IsInRange 1 12 month }
    ensures value { result.now ≡ month_name month }
    ensures size { length result.now ≡ 3 }
{
    match month {
        1 => "JAN",
        2 => "FEB",
        3 => "MAR",
        4 => "APR",
        5 => "MAY",
        6 => "JUN",
        7 => "JUL",
        8 => "AUG",
        9 => "SEP",
        10 => "OCT",
        11 => "NOV",
        _ => "DEC",
    }
}

// The month with these letters, in any case.
#[tactic(auto, unfolding(crate::specs::Date::month_of))]
pub(crate) fn month_of(letters: &[u8]) -> Option<u8>
    ensures value { result ≡ month_of letters.now }
    ensures bound { IfSome result (IsInRange 1 12) }
{
    for month in 1..=12 {
        if equals(month_name(month).as_bytes(), letters) {
            return Some(month);
        }
    }
    None
}
