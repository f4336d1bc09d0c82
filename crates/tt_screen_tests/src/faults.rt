// A run of `tt20` with each get failing, each put on the screen, and each get with each put of the message.
//
// What must stand is the trace of the whole run, cut where a call fails. The screen fails in one put alone, and would
// take what is put after it.
use cm_io::{Got, MemSource, NoMemory, Source};
use cm_io_tests::{Faults, Part, PartSink, Stop, stands_at};
use std::alloc::Global;
use std::test::Fail;
use tt_screen::{Status, tt20};

const KEYS: &[u8] = b"AB\x08C\r\n\nD";

// The rows are put after the last get, that of the end.
const TRACE: &str = "get
get
get
get
get
get
get
get
get
show AC~
show ~
show D~";

// Where a get fails no row is put, but the message alone.
const MESSAGE: &str = "show ?Read fault~";

const PARTS: [Part; 3] = [Part::Nothing, Part::First, Part::AllButLast];

// What is at the end of a run, and how many bytes are left.
#[derive(Drop)]
struct Outcome {
    status: Status,
    left: usize,
    screen: PartSink,
}

// How many bytes are left. One more get may be the one that fails.
fn count_left(keys: &mut MemSource) -> usize {
    let mut left: usize = 0;
    for _ in 0..KEYS.len().saturating_add(2) {
        if let Got::Byte(_) = keys.get() {
            left = left.saturating_add(1);
        }
    }
    left
}

// A run of which a get fails, and a put.
fn run(
    alloc: Global,
    get: Option<u32>,
    put: Option<usize>,
    part: Part,
) -> Result<Outcome, NoMemory> {
    let mut keys = MemSource::new(alloc, KEYS, get)?;
    let mut screen = PartSink::new(alloc, 4096, put, part)?;
    let status = tt20(&mut keys, &mut screen);
    Ok(Outcome {
        status,
        left: count_left(&mut keys),
        screen,
    })
}

// The status of a trace that was cut so.
fn status_of(stop: Stop) -> Status {
    match stop {
        Stop::End => Status::Done,
        Stop::Keys => Status::ReadFault,
        Stop::Screen | Stop::Log => Status::WriteFault,
    }
}

// Whether these events show this on a screen that takes so many bytes.
fn shows(
    alloc: Global,
    events: &str,
    screen: Option<usize>,
    shown: &[u8],
) -> Result<bool, NoMemory> {
    let faults = Faults {
        gets: None,
        screen,
        log: None,
    };
    let wanted = stands_at(alloc, events, &faults)?;
    Ok(wanted.screen.as_slice() == shown)
}

// Whether what must stand does where the get with this number fails, if it is asked for.
fn stands(alloc: Global, get: usize, outcome: &Outcome) -> Result<bool, NoMemory> {
    let faults = Faults {
        gets: Some(get),
        screen: None,
        log: None,
    };
    let wanted = stands_at(alloc, TRACE, &faults)?;
    let events = match wanted.stop {
        Stop::Keys => MESSAGE,
        _ => TRACE,
    };
    let taken = wanted.gets.min(KEYS.len());
    Ok(
        shows(alloc, events, None, outcome.screen.bytes())?
            && outcome.left.saturating_add(taken) == KEYS.len()
            && outcome.status == status_of(wanted.stop),
    )
}

fn try_get(alloc: Global, get: u32) -> Result<(), Fail> {
    let outcome = run(alloc, Some(get), None, Part::Nothing)?;
    if stands(alloc, get as usize, &outcome)? {
        return Ok(());
    }
    Err(Fail::new(format_args!("get {get}: {:?}", outcome.status)))
}

// With each put of a run failing: it shows what is before, and has the status that a failed screen leaves.
fn try_puts(
    alloc: Global,
    get: Option<u32>,
    events: &str,
    part: Part,
    status: Status,
) -> Result<(), Fail> {
    let whole = run(alloc, get, None, part)?;
    for put in 0..whole.screen.puts() {
        let outcome = run(alloc, get, Some(put), part)?;
        let screen = whole.screen.held_after(put, part);
        let is_so = shows(alloc, events, screen, outcome.screen.bytes())?
            && outcome.left == whole.left
            && outcome.status == status;
        if !is_so {
            return Err(Fail::new(format_args!("put {put} {part:?}: {:?}", outcome.status)));
        }
    }
    Ok(())
}

// After the get of the end there is none more.
#[test]
fn stands_where_the_bytes_fail(rt: HostRuntime) -> Result<(), Fail> {
    for get in 0..11u32 {
        try_get(rt.alloc(), get)?;
    }
    Ok(())
}

#[test]
fn stands_where_the_screen_fails(rt: HostRuntime) -> Result<(), Fail> {
    for part in PARTS {
        try_puts(rt.alloc(), None, TRACE, part, Status::WriteFault)?;
    }
    Ok(())
}

#[test]
fn stands_where_bytes_and_screen_fail(rt: HostRuntime) -> Result<(), Fail> {
    for get in 0..9u32 {
        for part in PARTS {
            try_puts(rt.alloc(), Some(get), MESSAGE, part, Status::ReadFault)?;
        }
    }
    Ok(())
}
