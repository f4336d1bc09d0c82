// What the runs of the tests are given, and what is to be at their ends.
ghost use Rattle.std.specs.Prelude.{◌≡◌, ◌<◌};

use cm_blocks::Steps;
use cm_io::{Clock, Host, MemClock, MemHost, MemSink, NoMemory, Sink};
use ex_batch::{Status, Words, batch20};
use std::marker::Brand;
use std::sync::ledger::{Blank, Ledger};

// What a run is given after its words, and what of it fails.
#[derive(Clone, Copy)]
pub struct Given<'a> {
    pub input: Option<&'a [u8]>,
    pub failing_call: Option<u32>,
    pub screen_room: u32,
    pub file_room: u32,
}

// What is at the end of a run.
#[derive(Drop)]
pub struct Outcome {
    pub status: Status,
    pub screen: MemSink,
    pub host: MemHost,
    pub clock: MemClock,
}

// A run over a host that has the file IN, or nothing, and a clock that tells 1, 2, 3 and so on.
pub(crate) fn outcome_of(
    runtime: &HostRuntime,
    words: &Words,
    given: &Given<'_>,
) -> Result<Outcome, NoMemory> {
    let alloc = runtime.alloc();
    let mut outcome = Outcome {
        status: Status::NoMemory,
        screen: MemSink::new(alloc, given.screen_room)?,
        host: host_of(runtime, given)?,
        clock: MemClock::new(alloc, &[1, 2, 3, 4, 5, 6, 7, 8])?,
    };
    outcome.status = run_program::<MemHost, MemSink, MemClock, Brand>(
        runtime,
        Blank::new(1),
        words,
        &mut outcome.host,
        &mut outcome.screen,
        &mut outcome.clock,
    );
    Ok(outcome)
}

fn host_of(runtime: &HostRuntime, given: &Given<'_>) -> Result<MemHost, NoMemory> {
    match given.failing_call {
        Some(call) => MemHost::new(runtime.alloc(), "IN", given.input, given.file_room, &[call]),
        None => MemHost::new(runtime.alloc(), "IN", given.input, given.file_room, &[]),
    }
}

// Makes the counter for this ledger, and runs `batch20`, as its program does.
pub(crate) fn run_program<H: Host, S: Sink, C: Clock, L: Ledger>(
    rt: &HostRuntime,
    blank: Blank,
    words: &Words,
    host: &mut H,
    screen: &mut S,
    clock: &mut C,
) -> Status
    requires name { blank.name ≡ L.name }
    requires parts { blank.parts ≡ L.parts }
    requires some { 0 < L.parts }
{
    let mut steps: Steps<L> = Steps::new(rt, blank);
    batch20(rt.alloc(), words, host, screen, clock, &mut steps)
}
