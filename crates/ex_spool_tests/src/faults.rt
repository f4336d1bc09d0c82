// A run over a queue of three, with each put on the screen failing, each call of the host, and each of the first puts
// with each call.
//
// What must stand is the trace of the whole run, cut where a put fails. The screen fails in one put alone, and would
// take what is put after it.
use cm_io::{MemClock, MemHost, NoMemory};
use cm_io_tests::{
    Failing, NOTHING, Part, PartSink, Stands, Stop, closing, has_image, is_written, push_text,
    stands_at, status_of,
};
use ex_spool::{Status, Words, spool20};
use std::alloc::{AllocError, Global};
use std::test::Fail;

const INPUT: &str =
    "EXEC20 2|D OPERATOR 1|C OPERATOR|F OPERATOR A..1 U 1 0 - 4|HI~|Q OPERATOR A..1 2 NARROW - A_|\
    Q OPERATOR A..1 1 WIDE 11 B_|Q OPERATOR B..1 1 WIDE 10 C_|E|";

// The pages of the first entry, and of the third, whose file is not there. After `act` is the image, with `/` between
// its writes.
const TRACE: &str = "show _JOB A~ FILE <OPERATOR>A..1~ FORM NARROW~ COPY 1 OF 2~\x0cHI~\x0c
show _JOB A~ FILE <OPERATOR>A..1~ FORM NARROW~ COPY 2 OF 2~\x0cHI~\x0c
show _FILE <OPERATOR>B..1 IS NOT THERE~\x0c
act EXEC20 2|/D OPERATOR 1|/C OPERATOR|/F OPERATOR A..1 U 1 0 - 4|/HI~/|/Q OPERATOR A..1 1 WIDE 11 B_|/E|";

// The day 10 has begun.
const MOMENT: u64 = 864_000;

// As many calls as the save has, and one more.
const CALLS: u32 = 11;

// How many puts fail together with each call.
const FIRST: usize = 5;

// What is at the end of a run.
#[derive(Drop)]
struct Outcome {
    status: Status,
    screen: PartSink,
    host: MemHost,
}

fn run(alloc: Global, failing: &Failing) -> Result<Outcome, NoMemory> {
    let mut words = Words::new();
    words.push("IN");
    words.push("OUT");
    let mut host = failing.host(alloc, INPUT)?;
    let mut screen = PartSink::new(alloc, 4096, failing.screen, failing.part)?;
    let mut clock = MemClock::new(alloc, &[MOMENT])?;
    let status = spool20(alloc, &words, &mut host, &mut screen, &mut clock);
    Ok(Outcome {
        status,
        screen,
        host,
    })
}

// Whether OUT is what it must be: it is not there where the pages were cut.
fn is_saved(
    alloc: Global,
    host: &MemHost,
    wanted: &Stands,
    call: Option<u32>,
) -> Result<bool, AllocError> {
    let out = host.file("OUT");
    if wanted.stop == Stop::End {
        return is_written(alloc, out, &wanted.state, call);
    }
    Ok(out.is_none())
}

// Whether all stands that must where the image was read.
fn is_cut(
    alloc: Global,
    outcome: &Outcome,
    wanted: &mut Stands,
    failing: &Failing,
) -> Result<bool, AllocError> {
    let loses = wanted.stop == Stop::End && failing.loses(&wanted.state);
    push_text(closing(wanted.stop, loses), &mut wanted.screen)?;
    let is_saved = is_saved(alloc, &outcome.host, wanted, failing.call)?;
    let has_image = has_image(alloc, &outcome.host, INPUT)?;
    Ok(
        is_saved
            && has_image
            && outcome.screen.bytes() == wanted.screen.as_slice()
            && outcome.status == status_of(wanted.stop, loses),
    )
}

// Whether nothing was done where the image could not be read.
fn is_refused(outcome: &Outcome, failing: &Failing) -> bool {
    failing.is_host_fault(outcome.screen.bytes())
        && outcome.status == Status::HostFault
        && outcome.host.file("OUT").is_none()
}

fn stands(
    alloc: Global,
    failing: &Failing,
    outcome: &Outcome,
    whole: &Outcome,
) -> Result<bool, AllocError> {
    if failing.call == Some(0) {
        return Ok(is_refused(outcome, failing));
    }
    let faults = failing.faults(&whole.screen, None);
    let mut wanted = stands_at(alloc, TRACE, &faults)?;
    is_cut(alloc, outcome, &mut wanted, failing)
}

fn try_one(alloc: Global, failing: &Failing, whole: &Outcome) -> Result<(), Fail> {
    let outcome = run(alloc, failing)?;
    if stands(alloc, failing, &outcome, whole)? {
        return Ok(());
    }
    let screen = String::from_utf8_lossy(alloc, outcome.screen.bytes())?;
    Err(Fail::new(format_args!("{failing:?} {:?} {:?}", outcome.status, screen.as_str())))
}

// With each call of the host, and after these with one that is not made.
fn try_calls(alloc: Global, failing: Failing, whole: &Outcome) -> Result<(), Fail> {
    for call in 0..CALLS.saturating_add(1) {
        let both = Failing {
            call: Some(call),
            ..failing
        };
        try_one(alloc, &both, whole)?;
    }
    Ok(())
}

fn try_put(alloc: Global, put: usize, part: Part, whole: &Outcome) -> Result<(), Fail> {
    let failing = Failing {
        screen: Some(put),
        part,
        ..NOTHING
    };
    try_one(alloc, &failing, whole)?;
    if put < FIRST {
        try_calls(alloc, failing, whole)?;
    }
    Ok(())
}

fn try_screen(alloc: Global, part: Part) -> Result<(), Fail> {
    let whole = run(alloc, &NOTHING)?;
    for put in 0..whole.screen.puts() {
        try_put(alloc, put, part, &whole)?;
    }
    Ok(())
}

#[test]
fn stands_where_the_host_fails(rt: HostRuntime) -> Result<(), Fail> {
    let whole = run(rt.alloc(), &NOTHING)?;
    try_one(rt.alloc(), &NOTHING, &whole)?;
    try_calls(rt.alloc(), NOTHING, &whole)
}

#[test]
fn stands_where_a_put_takes_nothing(rt: HostRuntime) -> Result<(), Fail> {
    try_screen(rt.alloc(), Part::Nothing)
}

#[test]
fn stands_where_a_put_takes_one_byte(rt: HostRuntime) -> Result<(), Fail> {
    try_screen(rt.alloc(), Part::First)
}

#[test]
fn stands_where_a_put_takes_all_but_one(rt: HostRuntime) -> Result<(), Fail> {
    try_screen(rt.alloc(), Part::AllButLast)
}
