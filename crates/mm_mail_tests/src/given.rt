// What the runs of the tests are given, and what is to be at their ends.
ghost use Rattle.std.specs.Prelude.{◌≡◌, ◌<◌};

use cm_blocks::Steps;
use cm_io::{Clock, Host, MemClock, MemHost, MemSink, MemSource, NoMemory, Sink, Source};
use mm_mail::{Status, Words, mm20};
use std::marker::Brand;
use std::sync::ledger::{Blank, Ledger};

// What a run is given after its words, and what of it fails. The moments are 1, 2, 3 and so on, or the first moment
// and then 0.
#[derive(Clone, Copy)]
pub struct Given<'a> {
    pub keys: &'a [u8],
    pub input: Option<&'a [u8]>,
    pub first_moment: Option<u64>,
    pub failing_get: Option<u32>,
    pub failing_call: Option<u32>,
    pub screen_room: u32,
    pub file_room: u32,
}

// What is at the end of a run.
#[derive(Drop)]
pub struct Outcome {
    pub status: Status,
    pub keys: MemSource,
    pub screen: MemSink,
    pub host: MemHost,
    pub clock: MemClock,
}

// A run over a host that has the file IN, or nothing.
pub(crate) fn outcome_of(
    runtime: &HostRuntime,
    words: &Words,
    given: &Given<'_>,
) -> Result<Outcome, NoMemory> {
    let mut outcome = before(runtime, given)?;
    outcome.status = run_program::<MemHost, MemSource, MemSink, MemClock, Brand>(
        runtime,
        Blank::new(1),
        words,
        &mut outcome.host,
        &mut outcome.keys,
        &mut outcome.screen,
        &mut outcome.clock,
    );
    Ok(outcome)
}

// What is before it, with a status that is none yet.
fn before(runtime: &HostRuntime, given: &Given<'_>) -> Result<Outcome, NoMemory> {
    let alloc = runtime.alloc();
    Ok(Outcome {
        status: Status::NoMemory,
        keys: MemSource::new(alloc, given.keys, given.failing_get)?,
        screen: MemSink::new(alloc, given.screen_room)?,
        host: host_of(runtime, given)?,
        clock: clock_of(runtime, given.first_moment)?,
    })
}

fn host_of(runtime: &HostRuntime, given: &Given<'_>) -> Result<MemHost, NoMemory> {
    match given.failing_call {
        Some(call) => MemHost::new(runtime.alloc(), "IN", given.input, given.file_room, &[call]),
        None => MemHost::new(runtime.alloc(), "IN", given.input, given.file_room, &[]),
    }
}

fn clock_of(runtime: &HostRuntime, first: Option<u64>) -> Result<MemClock, NoMemory> {
    match first {
        Some(moment) => MemClock::new(runtime.alloc(), &[moment]),
        None => MemClock::new(runtime.alloc(), &[1, 2, 3, 4, 5, 6, 7, 8]),
    }
}

// Makes the counter for this ledger, and runs `mm20`, as its program does.
pub(crate) fn run_program<H: Host, K: Source, S: Sink, C: Clock, L: Ledger>(
    rt: &HostRuntime,
    blank: Blank,
    words: &Words,
    host: &mut H,
    keys: &mut K,
    screen: &mut S,
    clock: &mut C,
) -> Status
    requires name { blank.name ≡ L.name }
    requires parts { blank.parts ≡ L.parts }
    requires some { 0 < L.parts }
{
    let mut steps: Steps<L> = Steps::new(rt, blank);
    mm20(rt.alloc(), words, host, keys, screen, clock, &mut steps)
}
