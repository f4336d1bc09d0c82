// A session that reads an image, acts and ends, with each call of the outside failing, and each of them together with
// each of the host's.
//
// What must stand is the trace of the whole session, cut where a call fails. Screen and log fail in one put alone, and
// would take what is put after it.
use crate::given::{run_program, words_of};
use cm_io::{Got, MemClock, MemHost, MemSource, NoMemory, Source};
use cm_io_tests::{
    Failing, NOTHING, Part, PartSink, Stands, closing, has_image, is_written, push_text, stands_at,
    status_of,
};
use ex_program::Status;
use std::alloc::{AllocError, Global};
use std::marker::Brand;
use std::sync::ledger::Blank;
use std::test::Fail;

const KEYS: &[u8] = b"EXP\rLOG\r";

const INPUT: &str = "EXEC20 2|D OPERATOR 1|C OPERATOR|F OPERATOR A..1 D 1 0 - 1|x|E|";

// After `act` is the image, with `/` between its writes.
const TRACE: &str = "act EXEC20 2|/D OPERATOR 1|/C OPERATOR|/F OPERATOR A..1 D 1 0 - 1|/x/|/E|
show @
get
show E
log 45 1 O|
get
show X
log 58 2 O|
get
show P
log 50 3 O|
get
show ~
log 0d 3 D 0.1k8@0-3 35.0n0@3-3|
act EXEC20 2|/D OPERATOR 1|/C OPERATOR|/E|
show  <OPERATOR> [Pages freed: 1]~
show @
get
show L
log 4c 1 O|
get
show O
log 4f 2 O|
get
show G
log 47 3 O|
get
show ~
log 0d 3 D 0.1k10@0-3|
show Logged out~";

// As many calls as the longest save has, and one more.
const CALLS: u32 = 11;

// What is at the end of a session.
#[derive(Drop)]
struct Outcome {
    status: Status,
    keys: MemSource,
    screen: PartSink,
    log: PartSink,
    host: MemHost,
}

fn before(alloc: Global, failing: &Failing) -> Result<Outcome, NoMemory> {
    Ok(Outcome {
        status: Status::NoMemory,
        keys: MemSource::new(alloc, KEYS, failing.get)?,
        screen: PartSink::new(alloc, 4096, failing.screen, failing.part)?,
        log: PartSink::new(alloc, 4096, failing.log, failing.part)?,
        host: failing.host(alloc, INPUT)?,
    })
}

fn session(runtime: &HostRuntime, failing: &Failing) -> Result<Outcome, NoMemory> {
    let alloc = runtime.alloc();
    let mut outcome = before(alloc, failing)?;
    let mut clock = MemClock::new(alloc, &[])?;
    outcome.status = run_program::<MemHost, MemSource, PartSink, PartSink, MemClock, Brand>(
        runtime,
        Blank::new(1),
        &words_of(&["-w", "IN", "OUT"]),
        &mut outcome.host,
        &mut outcome.keys,
        &mut outcome.screen,
        &mut outcome.log,
        &mut clock,
    );
    Ok(outcome)
}

// How many keys are left. One more get may be the one that fails.
fn count_left(keys: &mut MemSource) -> usize {
    let mut left: usize = 0;
    for _ in 0..KEYS.len().saturating_add(2) {
        if let Got::Byte(_) = keys.get() {
            left = left.saturating_add(1);
        }
    }
    left
}

fn is_shown(outcome: &Outcome, wanted: &Stands) -> bool {
    outcome.screen.bytes() == wanted.screen.as_slice()
        && outcome.log.bytes() == wanted.log.as_slice()
}

// Whether the keys after those that were taken are left, and IN is as it was.
fn is_left(alloc: Global, outcome: &mut Outcome, gets: usize) -> Result<bool, AllocError> {
    let has_image = has_image(alloc, &outcome.host, INPUT)?;
    let left = count_left(&mut outcome.keys);
    Ok(has_image && left.saturating_add(gets) == KEYS.len())
}

// Whether all stands that must where the image was read.
fn is_cut(
    alloc: Global,
    outcome: &mut Outcome,
    wanted: &mut Stands,
    failing: &Failing,
) -> Result<bool, AllocError> {
    let loses = failing.loses(&wanted.state);
    push_text(closing(wanted.stop, loses), &mut wanted.screen)?;
    let out = outcome.host.file("OUT");
    let is_written = is_written(alloc, out, &wanted.state, failing.call)?;
    let is_left = is_left(alloc, outcome, wanted.gets)?;
    Ok(
        is_written
            && is_left
            && is_shown(outcome, wanted)
            && outcome.status == status_of(wanted.stop, loses),
    )
}

// Whether nothing was done where the image could not be read.
fn is_refused(outcome: &mut Outcome, failing: &Failing) -> bool {
    failing.is_host_fault(outcome.screen.bytes())
        && outcome.status == Status::HostFault
        && outcome.log.bytes().is_empty()
        && count_left(&mut outcome.keys) == KEYS.len()
        && outcome.host.file("OUT").is_none()
}

fn stands(
    runtime: &HostRuntime,
    failing: &Failing,
    outcome: &mut Outcome,
    whole: &Outcome,
) -> Result<bool, AllocError> {
    if failing.call == Some(0) {
        return Ok(is_refused(outcome, failing));
    }
    let faults = failing.faults(&whole.screen, Some(&whole.log));
    let mut wanted = stands_at(runtime.alloc(), TRACE, &faults)?;
    is_cut(runtime.alloc(), outcome, &mut wanted, failing)
}

fn try_one(runtime: &HostRuntime, failing: &Failing, whole: &Outcome) -> Result<(), Fail> {
    let mut outcome = session(runtime, failing)?;
    if stands(runtime, failing, &mut outcome, whole)? {
        return Ok(());
    }
    let screen = String::from_utf8_lossy(runtime.alloc(), outcome.screen.bytes())?;
    let log = String::from_utf8_lossy(runtime.alloc(), outcome.log.bytes())?;
    Err(Fail::new(format_args!(
        "{failing:?} {:?} {:?} {:?}",
        outcome.status,
        screen.as_str(),
        log.as_str()
    )))
}

// With each call of the host, and after these with none.
fn try_calls(runtime: &HostRuntime, failing: Failing, whole: &Outcome) -> Result<(), Fail> {
    for call in 0..CALLS {
        let both = Failing {
            call: Some(call),
            ..failing
        };
        try_one(runtime, &both, whole)?;
    }
    Ok(())
}

fn try_gets(runtime: &HostRuntime, whole: &Outcome) -> Result<(), Fail> {
    for get in 0..9u32 {
        let failing = Failing {
            get: Some(get),
            ..NOTHING
        };
        try_calls(runtime, failing, whole)?;
    }
    Ok(())
}

fn try_screen(runtime: &HostRuntime, part: Part) -> Result<(), Fail> {
    let whole = session(runtime, &NOTHING)?;
    for put in 0..whole.screen.puts() {
        let failing = Failing {
            screen: Some(put),
            part,
            ..NOTHING
        };
        try_calls(runtime, failing, &whole)?;
    }
    Ok(())
}

fn try_log(runtime: &HostRuntime, part: Part) -> Result<(), Fail> {
    let whole = session(runtime, &NOTHING)?;
    for put in 0..whole.log.puts() {
        let failing = Failing {
            log: Some(put),
            part,
            ..NOTHING
        };
        try_calls(runtime, failing, &whole)?;
    }
    Ok(())
}

#[test]
fn stands_where_the_host_fails(rt: HostRuntime) -> Result<(), Fail> {
    let whole = session(&rt, &NOTHING)?;
    try_one(&rt, &NOTHING, &whole)?;
    try_calls(&rt, NOTHING, &whole)
}

#[test]
fn stands_where_keys_and_host_fail(rt: HostRuntime) -> Result<(), Fail> {
    try_gets(&rt, &session(&rt, &NOTHING)?)
}

#[test]
fn stands_where_a_put_on_the_screen_takes_nothing(rt: HostRuntime) -> Result<(), Fail> {
    try_screen(&rt, Part::Nothing)
}

#[test]
fn stands_where_a_put_on_the_screen_takes_one_byte(rt: HostRuntime) -> Result<(), Fail> {
    try_screen(&rt, Part::First)
}

#[test]
fn stands_where_a_put_on_the_screen_takes_all_but_one(rt: HostRuntime) -> Result<(), Fail> {
    try_screen(&rt, Part::AllButLast)
}

#[test]
fn stands_where_a_put_on_the_log_takes_nothing(rt: HostRuntime) -> Result<(), Fail> {
    try_log(&rt, Part::Nothing)
}

#[test]
fn stands_where_a_put_on_the_log_takes_one_byte(rt: HostRuntime) -> Result<(), Fail> {
    try_log(&rt, Part::First)
}

#[test]
fn stands_where_a_put_on_the_log_takes_all_but_one(rt: HostRuntime) -> Result<(), Fail> {
    try_log(&rt, Part::AllButLast)
}
