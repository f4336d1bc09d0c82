// Lines that are taken whole.

use super::question::{Question, tries};
use crate::cabinet::Cabinet;
use crate::cases::{line, numbered};
use crate::grammars::{exec, fields};
use crate::judges::Judges;
use cm_blocks::{Grammar, Steps};
use cm_io::{MemSink, Put};
use cm_state::{Session, Turn};
use std::alloc::Global;
use std::process::Abort;
use std::sync::ledger::Ledger;
use std::test::Fail;

// The outcome of a line from a node on, a bar, and its line of the log.
fn answer<L: Ledger>(
    rt: &impl Abort,
    alloc: Global,
    node: u16,
    text: &str,
    session: &mut Session,
    grammar: &Grammar,
    steps: &mut Steps<L>,
) -> Result<String, Fail> {
    assert!(rt; node < grammar.nodes());
    let line = line(rt, text);
    let turn = session.whole(node, line.bytes(), grammar, &Cabinet, &Judges, steps);
    assert_eq!(rt; session.text(), line.finished());
    tell(rt, alloc, turn, session)
}

fn tell(rt: &impl Abort, alloc: Global, turn: Turn, session: &Session) -> Result<String, Fail> {
    let log = logged(rt, alloc, session)?;
    Ok(format!(in alloc; "{turn:?}|{}", str::from_utf8(log.bytes())?.trim_end())?)
}

// The line of the log that tells of CR.
fn logged(rt: &impl Abort, alloc: Global, session: &Session) -> Result<MemSink, Fail> {
    let mut log = MemSink::new(alloc, 400)?;
    assert_eq!(rt; session.log_line(b'\r', &mut log), Put::Done);
    Ok(log)
}

// A case is a node, a line, its outcome, and its line of the log.
pub(crate) fn try_case<L: Ledger>(
    rt: &impl Abort,
    alloc: Global,
    case: &str,
    session: &mut Session,
    grammar: &Grammar,
    steps: &mut Steps<L>,
) -> Result<(), Fail> {
    let (node, text, wanted) = numbered(case).ok_or("a case")?;
    let found = answer(rt, alloc, node, text, session, grammar, steps)?;
    assert_eq!(rt; found.as_str(), wanted, "at {case}");
    Ok(())
}

// [whole-line]
#[test]
fn takes_whole_lines(rt: HostRuntime) -> Result<(), Fail> {
    let cases = "\
0|INF VER|Confirmed|0d 7 D 0.1k9@0-3 26.0n0@4-4 27.0k4@4-7
27|VER|Confirmed|0d 3 D 27.0k4@0-3
0||Confirmed|0d 0 D
0|LO|Refused(Fault { code: Ambiguous, node: 0, at: 0 })|0d 2 F2.0@0
0|INF -|Refused(Fault { code: NotKeyword, node: 27, at: 4 })|0d 5 F1.27@4 0.1k9@0-3 26.0n0@4-4
0|INF X|Refused(Fault { code: NotKeyword, node: 27, at: 4 })|0d 5 F1.27@4 0.1k9@0-3 26.0n0@4-4";
    tries(&rt, &rt, Question::Lines, exec(rt.alloc())?, cases)
}

// [log-line]
#[test]
fn logs_each_kind_of_value(rt: HostRuntime) -> Result<(), Fail> {
    let cases = "\
20|SEND|Confirmed|0d 4 D 20.0k65535@0-4
20|/FAST|Confirmed|0d 5 D 20.1s12@0-5
21|(OF) A|Confirmed|0d 6 D 21.0n1@0-4 22.0w@5-6
21|A|Confirmed|0d 1 D 21.0n0@0-0 22.0w@0-1
23|34359738367|Confirmed|0d 11 D 23.0#34359738367@0-11
27|\"a b\"|Confirmed|0d 5 D 27.0q@0-5
5|B x|Confirmed|0d 3 D 5.1x@0-3
5|All|Confirmed|0d 3 D 5.0t@0-3
23|,|Confirmed|0d 1 D 23.1,@0-1
12|SMITH|Confirmed|0d 5 D 12.0u@0-5
13|<SMITH>|Confirmed|0d 7 D 13.0D@0-7
14|<NEW>|Confirmed|0d 5 D 14.0D@0-5
10|A.FOR.1|Confirmed|0d 7 D 10.0i@0-7
18|NEW.X|Confirmed|0d 5 D 18.0o@0-5
15|NEW.X|Confirmed|0d 5 D 15.0f@0-5
6|AB|Confirmed|0d 2 D 6.0h2:2@0-2
26|A|Confirmed|0d 1 D 26.0h3:18446744073709551615@0-1
19|5-JAN-1980|Confirmed|0d 10 D 19.0d3656@0-10
19|31-DEC-99|Confirmed|0d 9 D 19.0d10956@0-9";
    tries(&rt, &rt, Question::Lines, fields(rt.alloc())?, cases)
}

// First what is no date by its shape, its month or a day 0, then a year that is out of range, then a day past the end
// of its month.
#[test]
fn refuses_dates_in_order(rt: HostRuntime) -> Result<(), Fail> {
    let cases = "\
9|5-JAN|Refused(Fault { code: BadDate, node: 9, at: 0 })|0d 5 F13.9@0
9|0-JAN-1969|Refused(Fault { code: BadDate, node: 9, at: 0 })|0d 10 F13.9@0
9|31-APR-1969|Refused(Fault { code: YearRange, node: 9, at: 0 })|0d 11 F14.9@0
9|31-APR-1980|Refused(Fault { code: BadDate, node: 9, at: 0 })|0d 11 F13.9@0
9| 5-JAN-2100|Refused(Fault { code: YearRange, node: 9, at: 1 })|0d 11 F14.9@1";
    tries(&rt, &rt, Question::Lines, fields(rt.alloc())?, cases)
}
