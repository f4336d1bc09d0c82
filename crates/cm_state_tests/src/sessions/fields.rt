// Fields that are kept over a key.
ghost use Rattle.std.specs.Prelude.{◌<◌, length};

use super::question::{Question, tries};
use super::run::{Run, run_of};
use crate::cabinet::Cabinet;
use crate::cases::{numbered, repeat};
use crate::grammars::exec;
use crate::judges::Judges;
use cm_blocks::{Grammar, Steps};
use std::alloc::Global;
use std::process::Abort;
use std::sync::ledger::Ledger;
use std::test::Fail;

// An edit may reach back into fields that were decided, and what follows is read anew.
#[test]
fn keeps_what_the_unchanged_front_decides(rt: HostRuntime) -> Result<(), Fail> {
    let cases = "\
DIR \x7f|Edited|@DIR \x08 \x08|
20 4 O 0.1k7@0-3
7f 3 O

copy (fr) TTYX|Edited|@copy (fr) TTYX|
59 13 O 0.1k4@0-4 1.0n1@5-9
58 14 F12.2@10 0.1k4@0-4 1.0n1@5-9

copy (fr) TTYX\x7f:|Edited|@copy (fr) TTYX\x08 \x08:|
7f 13 O 0.1k4@0-4 1.0n1@5-9
3a 14 O 0.1k4@0-4 1.0n1@5-9 2.0t@10-14

DEFINE A1:\x7f\x7f2:|Edited|@DEFINE A1:\x08 \x08\x08 \x082:|
7f 9 O 0.1k5@0-6 28.0n0@7-7
7f 8 O 0.1k5@0-6 28.0n0@7-7
32 9 O 0.1k5@0-6 28.0n0@7-7
3a 10 O 0.1k5@0-6 28.0n0@7-7 29.0h0:2@7-9 30.0t@9-10

P A/C:12/C:7 \x17\x17\x17|Edited|@P A/C:12/C:7 \x08 \x08\x08 \x08\x08 \x08\x08 \x08| \
37.0n0@2-2 38.0w@2-3 39.0s2@3-6 41.0#12@6-8 39.0s2@8-11
17 10 O 0.1k11@0-1 37.0n0@2-2 38.0w@2-3 39.0s2@3-6 41.0#12@6-8
17 9 O 0.1k11@0-1 37.0n0@2-2 38.0w@2-3 39.0s2@3-6 41.0#12@6-8

DEFINE PS:\r\x08A1:\r|Confirmed|@DEFINE PS:\r
?Value not accepted\r
@DEFINE A1:\r
@|
08 7 O 0.1k5@0-6
41 8 O 0.1k5@0-6 28.0n0@7-7
31 9 O 0.1k5@0-6 28.0n0@7-7
3a 10 O 0.1k5@0-6 28.0n0@7-7 29.0h0:2@7-9 30.0t@9-10
0d 10 D 0.1k5@0-6 28.0n0@7-7 29.0h0:2@7-9 30.0t@9-10 31.0n0@10-10

INF (AB\x7f\x7f\x7f!|Edited|@INF (AB\x08 \x08\x08 \x08\x08 \x08!|
42 7 O 0.1k9@0-3
7f 6 O 0.1k9@0-3
7f 5 O 0.1k9@0-3
7f 4 O 0.1k9@0-3
21 5 O 0.1k9@0-3

LOGOUT\r \r|Confirmed|@LOGOUT\r
@ \r
@|
0d 6 D 0.1k10@0-6
20 1 O
0d 1 D";
    tries(&rt, &rt, Question::Keys, exec(rt.alloc())?, cases)
}

// PRINT of A with so many times a number of copies, and more keys.
fn keys_of(alloc: Global, times: u16, more: &str) -> Result<String, Fail> {
    let mut keys = repeat(alloc, "P A[/C:1]", usize::from(times))?;
    keys.push_str(more)?;
    Ok(keys)
}

// How many fields are held, and how the parse ends.
fn tell(alloc: Global, run: &Run) -> Result<String, Fail> {
    let session = &run.session;
    Ok(format!(in alloc; "{} {:?}", session.held(), session.ending())?)
}

// The same of the run of such keys.
fn held<L: Ledger>(
    rt: &impl Abort,
    alloc: Global,
    times: u16,
    more: &str,
    grammar: &Grammar,
    steps: &mut Steps<L>,
) -> Result<String, Fail>
    requires nodes { 0 < length grammar.now.nodes }
{
    let keys = keys_of(alloc, times, more)?;
    let run = run_of(rt, alloc, &keys, grammar, &Cabinet, &Judges, steps)?;
    tell(alloc, &run)
}

pub(crate) fn try_case<L: Ledger>(
    rt: &impl Abort,
    alloc: Global,
    case: &str,
    grammar: &Grammar,
    steps: &mut Steps<L>,
) -> Result<(), Fail>
    requires nodes { 0 < length grammar.now.nodes }
{
    let (times, more, wanted) = numbered(case).ok_or("a case")?;
    let found = held(rt, alloc, times, more, grammar, steps)?;
    assert_eq!(rt; found.as_str(), wanted, "at {case}");
    Ok(())
}

// A line has 64 fields; one more that would be taken is a fault at its place.
#[test]
fn holds_64_fields(rt: HostRuntime) -> Result<(), Fail> {
    let cases = "\
30| |63 Open(Open { node: 39, block: Some(0), at: 124 })
30| /C:|64 Open(Open { node: 41, block: Some(0), at: 127 })
30| /C:1|64 Open(Open { node: 41, block: Some(0), at: 127 })
30| /C:1,|64 Fault(Fault { code: TooMany, node: 41, at: 127 })
31|/|64 Fault(Fault { code: TooMany, node: 41, at: 126 })
31|/\x7f|64 Open(Open { node: 41, block: Some(0), at: 126 })";
    tries(&rt, &rt, Question::Count, exec(rt.alloc())?, cases)
}
