// Chains with a date, by example. A day is counted from 1-JAN-1970 on, day 0.

use crate::grammars::nodes_of;
use crate::setting::answer_chains;
use cm_blocks::Grammar;
use std::alloc::Global;
use std::test::Fail;

const NODES: &str = "Date>1/Date>1 Number>1/Number>1 Date>1/Date>1 =5-JAN-80/Confirm";

fn grammar(alloc: Global) -> Result<Grammar, Fail> {
    Ok(Grammar::new(nodes_of(alloc, NODES)?, Vec::new(alloc))?)
}

// A year of two digits is one of 19yy. The block after a date is asked where the run is none, and one before it
// refuses a date as it does any other run.
const TAKEN: &str = "\
    0 0 5-JAN-1980\r => Field(Field { node: 0, block: 0, value: Date(3656), start: 0, end: 10, need: 11, \
    defaulted: false, role: None, next: 1 })\n\
    0 0 1-Jan-1970\r => Field(Field { node: 0, block: 0, value: Date(0), start: 0, end: 10, need: 11, \
    defaulted: false, role: None, next: 1 })\n\
    0 1 X 29-feb-72, => Field(Field { node: 0, block: 0, value: Date(789), start: 2, end: 11, need: 12, \
    defaulted: false, role: None, next: 1 })\n\
    0 0 29-FEB-2000\r => Field(Field { node: 0, block: 0, value: Date(11016), start: 0, end: 11, need: 12, \
    defaulted: false, role: None, next: 1 })\n\
    0 0 31-DEC-2099\r => Field(Field { node: 0, block: 0, value: Date(47481), start: 0, end: 11, need: 12, \
    defaulted: false, role: None, next: 1 })\n\
    1 0 5-JAN-80, => Field(Field { node: 1, block: 0, value: Date(3656), start: 0, end: 8, need: 9, \
    defaulted: false, role: None, next: 1 })\n\
    1 0 5, => Field(Field { node: 1, block: 1, value: Number(5), start: 0, end: 1, need: 2, \
    defaulted: false, role: Value, next: 1 })\n\
    2 0 5-JAN-80, => Field(Field { node: 2, block: 1, value: Date(3656), start: 0, end: 8, need: 9, \
    defaulted: false, role: None, next: 1 })\n\
    3 0 \r => Field(Field { node: 3, block: 0, value: Date(3656), start: 0, end: 0, need: 1, \
    defaulted: true, role: None, next: 1 })";

#[test]
fn takes_dates(rt: HostRuntime) -> Result<(), Fail> {
    answer_chains(&rt, &grammar(rt.alloc())?, TAKEN)
}

// First what is no date by its shape, its month or a day 0, then a year that is out of range, then a day past the end
// of its month.
const REFUSED: &str = "\
0 0 \r => Fault(Fault { code: BadDate, node: 0, at: 0 })
0 0 5\r => Fault(Fault { code: BadDate, node: 0, at: 0 })
0 0 5-JAN\r => Fault(Fault { code: BadDate, node: 0, at: 0 })
0 0 -JAN-1980\r => Fault(Fault { code: BadDate, node: 0, at: 0 })
0 0 005-JAN-1980\r => Fault(Fault { code: BadDate, node: 0, at: 0 })
0 0 5-JANUARY-1980\r => Fault(Fault { code: BadDate, node: 0, at: 0 })
0 0 5-JAX-1980\r => Fault(Fault { code: BadDate, node: 0, at: 0 })
0 0 5-1-1980\r => Fault(Fault { code: BadDate, node: 0, at: 0 })
0 0 5-JAN-980\r => Fault(Fault { code: BadDate, node: 0, at: 0 })
0 0 5-JAN-19800\r => Fault(Fault { code: BadDate, node: 0, at: 0 })
0 0 5-JAN-1980-\r => Fault(Fault { code: BadDate, node: 0, at: 0 })
0 0 5/JAN/1980\r => Fault(Fault { code: BadDate, node: 0, at: 0 })
0 0 0-JAN-1980\r => Fault(Fault { code: BadDate, node: 0, at: 0 })
0 0 00-JAN-1980\r => Fault(Fault { code: BadDate, node: 0, at: 0 })
0 0 5-JAN-1969\r => Fault(Fault { code: YearRange, node: 0, at: 0 })
0 0 5-JAN-2100\r => Fault(Fault { code: YearRange, node: 0, at: 0 })
0 0 5-JAN-69\r => Fault(Fault { code: YearRange, node: 0, at: 0 })
0 0 5-JAN-00\r => Fault(Fault { code: YearRange, node: 0, at: 0 })
0 0 32-JAN-1980\r => Fault(Fault { code: BadDate, node: 0, at: 0 })
0 0 31-APR-1980\r => Fault(Fault { code: BadDate, node: 0, at: 0 })
0 0 29-FEB-1981\r => Fault(Fault { code: BadDate, node: 0, at: 0 })
0 0 30-FEB-2000\r => Fault(Fault { code: BadDate, node: 0, at: 0 })";

#[test]
fn refuses_what_is_no_date(rt: HostRuntime) -> Result<(), Fail> {
    answer_chains(&rt, &grammar(rt.alloc())?, REFUSED)
}

// Where two are wrong the first decides. Of several blocks the last says why, and no run is refused before it
// has ended.
const FIRST_FAULT: &str = "\
0 0 0-JAN-1969\r => Fault(Fault { code: BadDate, node: 0, at: 0 })
0 0 5-JAX-2100\r => Fault(Fault { code: BadDate, node: 0, at: 0 })
0 0 32-JAN-1969\r => Fault(Fault { code: YearRange, node: 0, at: 0 })
0 0 31-APR-2100\r => Fault(Fault { code: YearRange, node: 0, at: 0 })
0 0 29-FEB-2100\r => Fault(Fault { code: YearRange, node: 0, at: 0 })
1 0 5-JAX-1980\r => Fault(Fault { code: BadNumber, node: 1, at: 0 })
2 0 5-JAN-1969\r => Fault(Fault { code: YearRange, node: 2, at: 0 })
0 0 5-JAN-1980 => Open(Open { node: 0, block: Some(0), at: 0 })
1 0 99-JAX => Open(Open { node: 1, block: Some(0), at: 0 })";

#[test]
fn refuses_by_the_first_fault(rt: HostRuntime) -> Result<(), Fail> {
    answer_chains(&rt, &grammar(rt.alloc())?, FIRST_FAULT)
}
