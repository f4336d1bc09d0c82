// A run that takes a command file, with each put on the screen failing, each call of the host, and both together.
//
// What must stand is the trace of the whole run, cut where a put fails. The screen fails in one put alone, and would
// take what is put after it.
use crate::given::run_program;
use cm_io::{MemClock, MemHost, NoMemory};
use cm_io_tests::{
    Failing, NOTHING, Part, PartSink, Stands, closing, has_image, is_written, push_text, stands_at,
    status_of,
};
use ex_batch::{Status, Words};
use std::alloc::{AllocError, Global};
use std::marker::Brand;
use std::sync::ledger::Blank;
use std::test::Fail;

const INPUT: &str =
    "EXEC20 2|D OPERATOR 1|C OPERATOR|F OPERATOR B.CMD.1 U 1 0 - 27|BUILD <X>|COPY B.CMD C.CMD||\
    F OPERATOR JOB.CTL.1 U 1 0 - 25|@TAKE B.CMD|@DEL JOB.CTL||E|";

// After `act` is the image, with `/` between its writes: as it was, with a directory more, with a file more, and with
// a file marked.
const TRACE: &str = "act EXEC20 2|/D OPERATOR 1|/C OPERATOR|/F OPERATOR B.CMD.1 U 1 0 - 27|/\
    BUILD <X>|COPY B.CMD C.CMD|/|/F OPERATOR JOB.CTL.1 U 1 0 - 25|/@TAKE B.CMD|@DEL JOB.CTL|/|/E|
show @TAKE B.CMD~
act EXEC20 2|/D OPERATOR 1|/D X 1|/C OPERATOR|/F OPERATOR B.CMD.1 U 1 0 - 27|/\
    BUILD <X>|COPY B.CMD C.CMD|/|/F OPERATOR JOB.CTL.1 U 1 0 - 25|/@TAKE B.CMD|@DEL JOB.CTL|/|/E|
act EXEC20 2|/D OPERATOR 1|/D X 1|/C OPERATOR|/F OPERATOR B.CMD.1 U 1 0 1 27|/\
    BUILD <X>|COPY B.CMD C.CMD|/|/F OPERATOR C.CMD.1 U 1 1 - 27|/BUILD <X>|COPY B.CMD C.CMD|/|/\
    F OPERATOR JOB.CTL.1 U 1 0 - 25|/@TAKE B.CMD|@DEL JOB.CTL|/|/E|
show _<OPERATOR>B.CMD.1 => <OPERATOR>C.CMD.1 [OK]~
show @DEL JOB.CTL~
act EXEC20 2|/D OPERATOR 1|/D X 1|/C OPERATOR|/F OPERATOR B.CMD.1 U 1 0 1 27|/\
    BUILD <X>|COPY B.CMD C.CMD|/|/F OPERATOR C.CMD.1 U 1 1 - 27|/BUILD <X>|COPY B.CMD C.CMD|/|/\
    F OPERATOR JOB.CTL.1 D 1 0 - 25|/@TAKE B.CMD|@DEL JOB.CTL|/|/E|
show _<OPERATOR>JOB.CTL.1 [OK]~";

// More than the calls of the longest save: a call that is not made fails nothing.
const CALLS: u32 = 18;

// How many puts fail together with each call.
const FIRST: usize = 5;

// What is at the end of a run.
#[derive(Drop)]
struct Outcome {
    status: Status,
    screen: PartSink,
    host: MemHost,
}

fn words() -> Words {
    let mut words = Words::new();
    words.push("IN");
    words.push("OUT");
    words.push("JOB.CTL");
    words
}

fn run(runtime: &HostRuntime, failing: &Failing) -> Result<Outcome, NoMemory> {
    let alloc = runtime.alloc();
    let mut clock = MemClock::new(alloc, &[1, 2])?;
    let mut outcome = Outcome {
        status: Status::NoMemory,
        screen: PartSink::new(alloc, 4096, failing.screen, failing.part)?,
        host: failing.host(alloc, INPUT)?,
    };
    outcome.status = run_program::<MemHost, PartSink, MemClock, Brand>(
        runtime,
        Blank::new(1),
        &words(),
        &mut outcome.host,
        &mut outcome.screen,
        &mut clock,
    );
    Ok(outcome)
}

// Whether all stands that must where the image was read.
fn is_cut(
    alloc: Global,
    outcome: &Outcome,
    wanted: &mut Stands,
    failing: &Failing,
) -> Result<bool, AllocError> {
    let loses = failing.loses(&wanted.state);
    push_text(closing(wanted.stop, loses), &mut wanted.screen)?;
    let out = outcome.host.file("OUT");
    let is_written = is_written(alloc, out, &wanted.state, failing.call)?;
    let has_image = has_image(alloc, &outcome.host, INPUT)?;
    Ok(
        is_written
            && has_image
            && outcome.screen.bytes() == wanted.screen.as_slice()
            && outcome.status == status_of(wanted.stop, loses),
    )
}

// Whether nothing was done where the image could not be read.
fn is_refused(outcome: &Outcome, failing: &Failing) -> bool {
    failing.is_host_fault(outcome.screen.bytes())
        && outcome.status == Status::HostFault
        && outcome.host.file("OUT").is_none()
}

fn stands(
    alloc: Global,
    failing: &Failing,
    outcome: &Outcome,
    whole: &Outcome,
) -> Result<bool, AllocError> {
    if failing.call == Some(0) {
        return Ok(is_refused(outcome, failing));
    }
    let faults = failing.faults(&whole.screen, None);
    let mut wanted = stands_at(alloc, TRACE, &faults)?;
    is_cut(alloc, outcome, &mut wanted, failing)
}

fn try_one(runtime: &HostRuntime, failing: &Failing, whole: &Outcome) -> Result<(), Fail> {
    let alloc = runtime.alloc();
    let outcome = run(runtime, failing)?;
    if stands(alloc, failing, &outcome, whole)? {
        return Ok(());
    }
    let screen = String::from_utf8_lossy(alloc, outcome.screen.bytes())?;
    let out = String::from_utf8_lossy(alloc, outcome.host.output().unwrap_or(b"none"))?;
    Err(Fail::new(format_args!(
        "{failing:?} {:?} {:?} {:?}",
        outcome.status,
        screen.as_str(),
        out.as_str()
    )))
}

// With each call of the host, and after these with one that is not made.
fn try_calls(runtime: &HostRuntime, failing: Failing, whole: &Outcome) -> Result<(), Fail> {
    for call in 0..CALLS.saturating_add(1) {
        let both = Failing {
            call: Some(call),
            ..failing
        };
        try_one(runtime, &both, whole)?;
    }
    Ok(())
}

// With each call of the host, or with each third after the first puts.
fn try_put(runtime: &HostRuntime, put: usize, part: Part, whole: &Outcome) -> Result<(), Fail> {
    let left = (put % 3) as u32;
    for call in 0..CALLS.saturating_add(1) {
        let failing = Failing {
            screen: Some(put),
            part,
            call: Some(call),
            ..NOTHING
        };
        if put < FIRST || call % 3 == left {
            try_one(runtime, &failing, whole)?;
        }
    }
    Ok(())
}

fn try_screen(runtime: &HostRuntime, part: Part) -> Result<(), Fail> {
    let whole = run(runtime, &NOTHING)?;
    for put in 0..whole.screen.puts() {
        try_put(runtime, put, part, &whole)?;
    }
    Ok(())
}

#[test]
fn stands_where_the_host_fails(rt: HostRuntime) -> Result<(), Fail> {
    let whole = run(&rt, &NOTHING)?;
    try_one(&rt, &NOTHING, &whole)?;
    try_calls(&rt, NOTHING, &whole)
}

#[test]
fn stands_where_a_put_takes_nothing(rt: HostRuntime) -> Result<(), Fail> {
    try_screen(&rt, Part::Nothing)
}

#[test]
fn stands_where_a_put_takes_one_byte(rt: HostRuntime) -> Result<(), Fail> {
    try_screen(&rt, Part::First)
}

#[test]
fn stands_where_a_put_takes_all_but_one(rt: HostRuntime) -> Result<(), Fail> {
    try_screen(&rt, Part::AllButLast)
}
