// A session that sends, reads and deletes a message, with each get failing, each put on the screen, each call of the
// host, and each of the first gets and puts with each call of the host.
//
// What must stand is the trace of the whole session, cut where a call fails. The screen fails in one put alone, and
// would take what is put after it.
use crate::given::run_program;
use cm_io::{Got, MemClock, MemHost, MemSource, NoMemory, Source};
use cm_io_tests::{
    Failing, NOTHING, Part, PartSink, Stands, closing, has_image, is_written, push_text, stands_at,
    status_of,
};
use mm_mail::{Status, Words};
use std::alloc::{AllocError, Global};
use std::marker::Brand;
use std::sync::ledger::Blank;
use std::test::Fail;

const KEYS: &[u8] = b"S A \"B\"\rX\x1aR 1\rD 1\rQ\r";

const INPUT: &str = "EXEC20 2|D A 1|D OPERATOR 1|C A|E|";

// After `act` is the image, with `/` between its writes: as it was, with the message, and with the message marked.
const TRACE: &str = "act EXEC20 2|/D A 1|/D OPERATOR 1|/C A|/E|
show @
get
show S
get
show _
get
show A
get
show _
get
show \"
get
show B
get
show \"
get
show ~
get
show X
get
show ^Z~
act EXEC20 2|/D A 1|/D OPERATOR 1|/C A|/F A MSG-0001.MAIL.1 U 1 1 - 7|/A: B~X/|/E|
show _Sent to A 0001~
show @
get
show R
get
show _
get
show 1
get
show ~
show A: B~X~
show @
get
show D
get
show _
get
show 1
get
show ~
act EXEC20 2|/D A 1|/D OPERATOR 1|/C A|/F A MSG-0001.MAIL.1 D 1 1 - 7|/A: B~X/|/E|
show _Deleted 0001~
show @
get
show Q
get
show ~";

// As many calls as the longest save has, and one more.
const CALLS: u32 = 12;

// How many gets, and how many puts, fail together with each call.
const FIRST: usize = 5;

// What is at the end of a session.
#[derive(Drop)]
struct Outcome {
    status: Status,
    keys: MemSource,
    screen: PartSink,
    host: MemHost,
}

fn words() -> Words {
    let mut words = Words::new();
    words.push("IN");
    words.push("OUT");
    words
}

fn before(alloc: Global, failing: &Failing) -> Result<Outcome, NoMemory> {
    Ok(Outcome {
        status: Status::NoMemory,
        keys: MemSource::new(alloc, KEYS, failing.get)?,
        screen: PartSink::new(alloc, 4096, failing.screen, failing.part)?,
        host: failing.host(alloc, INPUT)?,
    })
}

fn session(runtime: &HostRuntime, failing: &Failing) -> Result<Outcome, NoMemory> {
    let alloc = runtime.alloc();
    let mut outcome = before(alloc, failing)?;
    let mut clock = MemClock::new(alloc, &[1, 2, 3, 4])?;
    outcome.status = run_program::<MemHost, MemSource, PartSink, MemClock, Brand>(
        runtime,
        Blank::new(1),
        &words(),
        &mut outcome.host,
        &mut outcome.keys,
        &mut outcome.screen,
        &mut clock,
    );
    Ok(outcome)
}

// How many keys are left. One more get may be the one that fails.
fn count_left(keys: &mut MemSource) -> usize {
    let mut left: usize = 0;
    for _ in 0..KEYS.len().saturating_add(2) {
        if let Got::Byte(_) = keys.get() {
            left = left.saturating_add(1);
        }
    }
    left
}

// Whether the keys after those that were taken are left, and IN is as it was.
fn is_left(alloc: Global, outcome: &mut Outcome, gets: usize) -> Result<bool, AllocError> {
    let has_image = has_image(alloc, &outcome.host, INPUT)?;
    let left = count_left(&mut outcome.keys);
    Ok(has_image && left.saturating_add(gets) == KEYS.len())
}

// Whether all stands that must where the image was read.
fn is_cut(
    alloc: Global,
    outcome: &mut Outcome,
    wanted: &mut Stands,
    failing: &Failing,
) -> Result<bool, AllocError> {
    let loses = failing.loses(&wanted.state);
    push_text(closing(wanted.stop, loses), &mut wanted.screen)?;
    let out = outcome.host.file("OUT");
    let is_written = is_written(alloc, out, &wanted.state, failing.call)?;
    let is_left = is_left(alloc, outcome, wanted.gets)?;
    Ok(
        is_written
            && is_left
            && outcome.screen.bytes() == wanted.screen.as_slice()
            && outcome.status == status_of(wanted.stop, loses),
    )
}

// Whether nothing was done where the image could not be read.
fn is_refused(outcome: &mut Outcome, failing: &Failing) -> bool {
    failing.is_host_fault(outcome.screen.bytes())
        && outcome.status == Status::HostFault
        && count_left(&mut outcome.keys) == KEYS.len()
        && outcome.host.file("OUT").is_none()
}

fn stands(
    alloc: Global,
    failing: &Failing,
    outcome: &mut Outcome,
    whole: &Outcome,
) -> Result<bool, AllocError> {
    if failing.call == Some(0) {
        return Ok(is_refused(outcome, failing));
    }
    let faults = failing.faults(&whole.screen, None);
    let mut wanted = stands_at(alloc, TRACE, &faults)?;
    is_cut(alloc, outcome, &mut wanted, failing)
}

fn try_one(runtime: &HostRuntime, failing: &Failing, whole: &Outcome) -> Result<(), Fail> {
    let alloc = runtime.alloc();
    let mut outcome = session(runtime, failing)?;
    if stands(alloc, failing, &mut outcome, whole)? {
        return Ok(());
    }
    let screen = String::from_utf8_lossy(alloc, outcome.screen.bytes())?;
    let out = String::from_utf8_lossy(alloc, outcome.host.output().unwrap_or(b"none"))?;
    Err(Fail::new(format_args!(
        "{failing:?} {:?} {:?} {:?}",
        outcome.status,
        screen.as_str(),
        out.as_str()
    )))
}

// With each call of the host, and after these with one that is not made.
fn try_calls(runtime: &HostRuntime, failing: Failing, whole: &Outcome) -> Result<(), Fail> {
    for call in 0..CALLS {
        let both = Failing {
            call: Some(call),
            ..failing
        };
        try_one(runtime, &both, whole)?;
    }
    Ok(())
}

// Alone, and of the first ones with each call of the host.
fn try_number(
    runtime: &HostRuntime,
    failing: Failing,
    number: usize,
    whole: &Outcome,
) -> Result<(), Fail> {
    try_one(runtime, &failing, whole)?;
    if number < FIRST {
        try_calls(runtime, failing, whole)?;
    }
    Ok(())
}

// The get after the last key is not made.
fn try_gets(runtime: &HostRuntime) -> Result<(), Fail> {
    let whole = session(runtime, &NOTHING)?;
    for get in 0..KEYS.len().saturating_add(1) {
        let failing = Failing {
            get: Some(get as u32),
            ..NOTHING
        };
        try_number(runtime, failing, get, &whole)?;
    }
    Ok(())
}

fn try_screen(runtime: &HostRuntime, part: Part) -> Result<(), Fail> {
    let whole = session(runtime, &NOTHING)?;
    for put in 0..whole.screen.puts() {
        let failing = Failing {
            screen: Some(put),
            part,
            ..NOTHING
        };
        try_number(runtime, failing, put, &whole)?;
    }
    Ok(())
}

#[test]
fn stands_where_the_host_fails(rt: HostRuntime) -> Result<(), Fail> {
    let whole = session(&rt, &NOTHING)?;
    try_one(&rt, &NOTHING, &whole)?;
    try_calls(&rt, NOTHING, &whole)
}

#[test]
fn stands_where_the_keys_fail(rt: HostRuntime) -> Result<(), Fail> {
    try_gets(&rt)
}

#[test]
fn stands_where_a_put_takes_nothing(rt: HostRuntime) -> Result<(), Fail> {
    try_screen(&rt, Part::Nothing)
}

#[test]
fn stands_where_a_put_takes_one_byte(rt: HostRuntime) -> Result<(), Fail> {
    try_screen(&rt, Part::First)
}

#[test]
fn stands_where_a_put_takes_all_but_one(rt: HostRuntime) -> Result<(), Fail> {
    try_screen(&rt, Part::AllButLast)
}
