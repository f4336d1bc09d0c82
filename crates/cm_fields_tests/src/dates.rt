// Dates by example. Day numbers are those of Python's `datetime`.
use crate::cases::{is_wanted, number, part};
use crate::fields::{Trial, tries};
use cm_dates::laws::{
    a_date_is_local, a_day_has_its_text, a_day_has_one_text, a_finished_date_is_decided,
    text_is_read,
};
use cm_dates::{DAY_LIMIT, day_text};
use std::process::Abort;
use std::test::Fail;

const DATES: &str = "\
1-JAN-1970\r|0|Accept { value: Date(0), looked: 11, end: 10 }
5-JAN-70\r|0|Accept { value: Date(4), looked: 9, end: 8 }
05-JAN-1970\r|0|Accept { value: Date(4), looked: 12, end: 11 }
5-jan-1980,|0|Accept { value: Date(3656), looked: 11, end: 10 }
10-Feb-1975\r|0|Accept { value: Date(1866), looked: 12, end: 11 }
9-dEC-00\r|0|Refuse { code: YearRange, looked: 9 }
31-DEC-99/|0|Accept { value: Date(10956), looked: 10, end: 9 }
29-FEB-2000\r|0|Accept { value: Date(11016), looked: 12, end: 11 }
29-FEB-2096\r|0|Accept { value: Date(46080), looked: 12, end: 11 }
31-DEC-2099\r|0|Accept { value: Date(47481), looked: 12, end: 11 }
30-APR-1999 A\r|0|Accept { value: Date(10711), looked: 12, end: 11 }
P A/AFTER:5-JAN-70\r|10|Accept { value: Date(4), looked: 9, end: 18 }
5-JAN-1970|0|More
|0|More";

// [date]
#[test]
fn takes_dates(rt: HostRuntime) -> Result<(), Fail> {
    tries(&rt, rt.alloc(), Trial::Date, DATES)
}

// Each with the end of the line after it, which is looked at.
const SHAPES: &str = "\
\r|0|Refuse { code: BadDate, looked: 1 }
-\r|0|Refuse { code: BadDate, looked: 2 }
--\r|0|Refuse { code: BadDate, looked: 3 }
5\r|0|Refuse { code: BadDate, looked: 2 }
5-JAN\r|0|Refuse { code: BadDate, looked: 6 }
5-JAN-\r|0|Refuse { code: BadDate, looked: 7 }
5--1970\r|0|Refuse { code: BadDate, looked: 8 }
-JAN-1970\r|0|Refuse { code: BadDate, looked: 10 }
5-JAN-1970-\r|0|Refuse { code: BadDate, looked: 12 }
5-JAN-19-70\r|0|Refuse { code: BadDate, looked: 12 }
005-JAN-1970\r|0|Refuse { code: BadDate, looked: 13 }
5-JANUARY-1970\r|0|Refuse { code: BadDate, looked: 15 }
5-JA-1970\r|0|Refuse { code: BadDate, looked: 10 }
5-01-1970\r|0|Refuse { code: BadDate, looked: 10 }
5-JAN-197\r|0|Refuse { code: BadDate, looked: 10 }
5-JAN-01970\r|0|Refuse { code: BadDate, looked: 12 }
5-JAN-7\r|0|Refuse { code: BadDate, looked: 8 }
A-JAN-1970\r|0|Refuse { code: BadDate, looked: 11 }
5-JAN-19A0\r|0|Refuse { code: BadDate, looked: 11 }";

#[test]
fn refuses_what_has_not_the_shape(rt: HostRuntime) -> Result<(), Fail> {
    tries(&rt, rt.alloc(), Trial::Date, SHAPES)
}

// A day 0 belongs to the shape, the year comes next, and the end of the month last.
const ORDER: &str = "\
0-JAN-1970\r|0|Refuse { code: BadDate, looked: 11 }
0-JAN-1960\r|0|Refuse { code: BadDate, looked: 11 }
00-JAN-2100\r|0|Refuse { code: BadDate, looked: 12 }
1-JAN-69\r|0|Refuse { code: YearRange, looked: 9 }
31-DEC-1969\r|0|Refuse { code: YearRange, looked: 12 }
1-JAN-2100\r|0|Refuse { code: YearRange, looked: 11 }
1-JAN-0000\r|0|Refuse { code: YearRange, looked: 11 }
99-JAN-1960\r|0|Refuse { code: YearRange, looked: 12 }
99-JAN-9999\r|0|Refuse { code: YearRange, looked: 12 }
99-JAN-1970\r|0|Refuse { code: BadDate, looked: 12 }
32-DEC-2099\r|0|Refuse { code: BadDate, looked: 12 }
31-APR-1999\r|0|Refuse { code: BadDate, looked: 12 }
29-FEB-1999\r|0|Refuse { code: BadDate, looked: 12 }
30-FEB-2000\r|0|Refuse { code: BadDate, looked: 12 }";

#[test]
fn refuses_in_order(rt: HostRuntime) -> Result<(), Fail> {
    tries(&rt, rt.alloc(), Trial::Date, ORDER)
}

const DAYS: &str = "\
0|1-JAN-1970
9|10-JAN-1970
31|1-FEB-1970
1893|9-MAR-1975
11440|28-APR-2001
11470|28-MAY-2001
11501|28-JUN-2001
11531|28-JUL-2001
11562|28-AUG-2001
11593|28-SEP-2001
11623|28-OCT-2001
20784|27-NOV-2026
11016|29-FEB-2000
47481|31-DEC-2099";

fn shows_a_day(rt: &impl Abort, case: &str) {
    let day = i32::from(number(rt, part(rt, case, 0)));
    assert!(rt; day <= DAY_LIMIT, "{case}");
    is_wanted(rt, case, day_text(day).as_str());
}

#[test]
fn shows_days(rt: HostRuntime) {
    for case in DAYS.lines() {
        shows_a_day(&rt, case);
    }
}

#[test]
fn the_laws_hold() {
    a_date_is_local();
    a_finished_date_is_decided();
    text_is_read();
    a_day_has_its_text();
    a_day_has_one_text();
}
