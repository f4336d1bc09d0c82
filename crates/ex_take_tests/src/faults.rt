// A command file that takes another, with each put on the screen failing.
//
// What must stand is the trace of the whole, cut where a put fails, and the EXEC is at rest after it. The screen fails
// in one put alone, and would take what is put after it.
ghost use Rattle.std.specs.Prelude.{◌≡◌, ◌<◌};

use crate::files::{exec_of, has, place};
use cm_blocks::Steps;
use cm_io::{MemHost, NoMemory};
use cm_io_tests::{Faults, Part, PartSink, Stop, stands_at};
use ex_image::encode;
use ex_store::Store;
use ex_take::{Exec, Took, take};
use std::alloc::Global;
use std::marker::Brand;
use std::sync::ledger::{Blank, Ledger};
use std::test::Fail;

const FILES: &str = "file A.CMD|TAKE B.CMD~BUILD <Y>~
file B.CMD|INF VER~BUILD <X>~COPY A.CMD C.CMD~";

// After `act` is the image: as it was, with a directory more, with a file more, and with another directory.
const TRACE: &str =
    "act EXEC20 2|D OPERATOR 1|C OPERATOR|F OPERATOR A.CMD.1 U 1 0 - 21|TAKE B.CMD|BUILD <Y>||\
    F OPERATOR B.CMD.1 U 1 0 - 35|INF VER|BUILD <X>|COPY A.CMD C.CMD||E|
show _EXEC20 1~
act EXEC20 2|D OPERATOR 1|D X 1|C OPERATOR|F OPERATOR A.CMD.1 U 1 0 - 21|TAKE B.CMD|BUILD <Y>||\
    F OPERATOR B.CMD.1 U 1 0 - 35|INF VER|BUILD <X>|COPY A.CMD C.CMD||E|
act EXEC20 2|D OPERATOR 1|D X 1|C OPERATOR|F OPERATOR A.CMD.1 U 1 0 0 21|TAKE B.CMD|BUILD <Y>||\
    F OPERATOR B.CMD.1 U 1 0 - 35|INF VER|BUILD <X>|COPY A.CMD C.CMD||\
    F OPERATOR C.CMD.1 U 1 0 - 21|TAKE B.CMD|BUILD <Y>||E|
show _<OPERATOR>A.CMD.1 => <OPERATOR>C.CMD.1 [OK]~
act EXEC20 2|D OPERATOR 1|D X 1|D Y 1|C OPERATOR|F OPERATOR A.CMD.1 U 1 0 0 21|TAKE B.CMD|BUILD <Y>||\
    F OPERATOR B.CMD.1 U 1 0 - 35|INF VER|BUILD <X>|COPY A.CMD C.CMD||\
    F OPERATOR C.CMD.1 U 1 0 - 21|TAKE B.CMD|BUILD <Y>||E|";

// What is after a file that was taken.
#[derive(Drop)]
struct Outcome {
    took: Option<Took>,
    is_at_rest: bool,
    screen: PartSink,
    host: MemHost,
}

// Writes the image of a store to OUT.
fn saved(alloc: Global, store: &Store) -> Result<MemHost, NoMemory> {
    let mut host = MemHost::new(alloc, "IN", None, 1024, &[])?;
    encode(store, &mut host, "OUT");
    Ok(host)
}

// Takes A.CMD, where the EXEC is at rest.
fn take_first<L: Ledger>(
    exec: &mut Exec,
    screen: &mut PartSink,
    steps: &mut Steps<L>,
) -> Option<Took> {
    let file = place("A.CMD");
    if !exec.is_at_rest() {
        return None;
    }
    if !has(exec.store(), &file.directory) {
        return None;
    }
    Some(take(exec, &file, 0, screen, steps))
}

fn outcome_of<L: Ledger>(
    alloc: Global,
    put: Option<usize>,
    part: Part,
    steps: &mut Steps<L>,
) -> Result<Outcome, Fail> {
    let mut exec = exec_of(alloc, FILES)?;
    let mut screen = PartSink::new(alloc, 4096, put, part)?;
    let took = take_first(&mut exec, &mut screen, steps);
    Ok(Outcome {
        took,
        is_at_rest: exec.is_at_rest(),
        screen,
        host: saved(alloc, exec.store())?,
    })
}

fn took_of(stop: Stop) -> Option<Took> {
    match stop {
        Stop::End => Some(Took::Ok),
        _ => Some(Took::Failed),
    }
}

// Whether what stands is the trace, cut where the screen has taken so many bytes.
fn is_cut(alloc: Global, outcome: &Outcome, screen: Option<usize>) -> Result<bool, NoMemory> {
    let faults = Faults {
        gets: None,
        screen,
        log: None,
    };
    let wanted = stands_at(alloc, TRACE, &faults)?;
    Ok(
        outcome.screen.bytes() == wanted.screen.as_slice()
            && outcome.host.output() == Some(wanted.state.as_slice())
            && outcome.took == took_of(wanted.stop)
            && outcome.is_at_rest,
    )
}

fn try_put<L: Ledger>(
    alloc: Global,
    put: usize,
    part: Part,
    whole: &Outcome,
    steps: &mut Steps<L>,
) -> Result<(), Fail> {
    let outcome = outcome_of(alloc, Some(put), part, steps)?;
    if is_cut(alloc, &outcome, whole.screen.held_after(put, part))? {
        return Ok(());
    }
    let screen = String::from_utf8_lossy(alloc, outcome.screen.bytes())?;
    Err(Fail::new(format_args!(
        "put {put} {part:?}: {:?} {:?}",
        outcome.took,
        screen.as_str()
    )))
}

// With each put failing, and with one that is not made.
fn try_puts<L: Ledger>(alloc: Global, part: Part, steps: &mut Steps<L>) -> Result<(), Fail> {
    let whole = outcome_of(alloc, None, part, steps)?;
    for put in 0..whole.screen.puts().saturating_add(1) {
        try_put(alloc, put, part, &whole, steps)?;
    }
    Ok(())
}

// Makes the counter.
fn try_counted<L: Ledger>(rt: &HostRuntime, blank: Blank, part: Part) -> Result<(), Fail>
    requires name { blank.name ≡ L.name }
    requires parts { blank.parts ≡ L.parts }
    requires some { 0 < L.parts }
{
    let mut steps: Steps<L> = Steps::new(rt, blank);
    try_puts(rt.alloc(), part, &mut steps)
}

fn try_part(rt: &HostRuntime, part: Part) -> Result<(), Fail> {
    try_counted::<Brand>(rt, Blank::new(1), part)
}

#[test]
fn stands_where_a_put_takes_nothing(rt: HostRuntime) -> Result<(), Fail> {
    try_part(&rt, Part::Nothing)
}

#[test]
fn stands_where_a_put_takes_one_byte(rt: HostRuntime) -> Result<(), Fail> {
    try_part(&rt, Part::First)
}

#[test]
fn stands_where_a_put_takes_all_but_one(rt: HostRuntime) -> Result<(), Fail> {
    try_part(&rt, Part::AllButLast)
}
