// A session of the lamps with each get failing, and each put on the screen.
//
// What must stand is the trace of the whole session, cut where a call fails. The screen fails in one put alone, and
// would take what is put after it.
use crate::given::{End, run_lamps};
use cm_io::{Got, MemSource, NoMemory, Source};
use cm_io_tests::{Faults, Part, PartSink, Stop as Cut, stands_at};
use cm_run::Stop;
use std::alloc::{AllocError, Global};
use std::test::Fail;

const KEYS: &[u8] = b"S H 7\rD H\rQ\rX";

// After `act` is how bright the lamp in the hall is.
const TRACE: &str = "act 0
show @
get
show S
get
show _
get
show H
get
show _
get
show 7
get
show ~
act 7
show @
get
show D
get
show _
get
show H
get
show ~
act 0
show @
get
show Q
get
show ~";

const PARTS: [Part; 3] = [Part::Nothing, Part::First, Part::AllButLast];

// What is at the end of a session, and how many keys are left.
#[derive(Drop)]
struct Outcome {
    end: End,
    left: usize,
    screen: PartSink,
}

// How many keys are left. One more get may be the one that fails.
fn count_left(keys: &mut MemSource) -> usize {
    let mut left: usize = 0;
    for _ in 0..KEYS.len().saturating_add(2) {
        if let Got::Byte(_) = keys.get() {
            left = left.saturating_add(1);
        }
    }
    left
}

// A session of which a get fails, and a put.
fn session(
    runtime: &HostRuntime,
    get: Option<u32>,
    put: Option<usize>,
    part: Part,
) -> Result<Outcome, NoMemory> {
    let mut keys = MemSource::new(runtime.alloc(), KEYS, get)?;
    let mut screen = PartSink::new(runtime.alloc(), 4096, put, part)?;
    let end = run_lamps(runtime, &mut keys, &mut screen)?;
    Ok(Outcome {
        end,
        left: count_left(&mut keys),
        screen,
    })
}

fn end_of(cut: Cut) -> Result<(), Stop> {
    match cut {
        Cut::End => Ok(()),
        Cut::Keys => Err(Stop::Keys),
        Cut::Screen => Err(Stop::Screen),
        Cut::Log => Err(Stop::Log),
    }
}

// Whether what stands is the trace, cut by these faults.
fn is_cut(alloc: Global, outcome: &Outcome, faults: &Faults) -> Result<bool, AllocError> {
    let wanted = stands_at(alloc, TRACE, faults)?;
    let level = format!(in alloc; "{}", outcome.end.levels[0])?;
    Ok(
        outcome.screen.bytes() == wanted.screen.as_slice()
            && level.as_bytes() == wanted.state.as_slice()
            && outcome.left.saturating_add(wanted.gets) == KEYS.len()
            && outcome.end.result == end_of(wanted.stop),
    )
}

fn try_get(runtime: &HostRuntime, get: u32) -> Result<(), Fail> {
    let outcome = session(runtime, Some(get), None, Part::Nothing)?;
    let faults = Faults {
        gets: Some(get as usize),
        screen: None,
        log: None,
    };
    if is_cut(runtime.alloc(), &outcome, &faults)? {
        return Ok(());
    }
    Err(Fail::new(format_args!("get {get}: {:?}", outcome.end.result)))
}

fn try_put(runtime: &HostRuntime, put: usize, part: Part, whole: &Outcome) -> Result<(), Fail> {
    let outcome = session(runtime, None, Some(put), part)?;
    let faults = Faults {
        gets: None,
        screen: whole.screen.held_after(put, part),
        log: None,
    };
    if is_cut(runtime.alloc(), &outcome, &faults)? {
        return Ok(());
    }
    Err(Fail::new(format_args!("put {put} {part:?}: {:?}", outcome.end.result)))
}

fn try_puts(runtime: &HostRuntime, part: Part) -> Result<(), Fail> {
    let whole = session(runtime, None, None, part)?;
    // The last number is that of no put.
    for put in 0..whole.screen.puts().saturating_add(1) {
        try_put(runtime, put, part, &whole)?;
    }
    Ok(())
}

// After the 12 gets before QUIT ends the session there is none more.
#[test]
fn stands_where_the_keys_fail(rt: HostRuntime) -> Result<(), Fail> {
    for get in 0..13u32 {
        try_get(&rt, get)?;
    }
    Ok(())
}

#[test]
fn stands_where_the_screen_fails(rt: HostRuntime) -> Result<(), Fail> {
    for part in PARTS {
        try_puts(&rt, part)?;
    }
    Ok(())
}
