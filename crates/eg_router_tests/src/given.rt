// What the runs of the tests are given, and what is to be at their ends.
ghost use Rattle.std.specs.Prelude.{◌≡◌, ◌<◌};

use cm_blocks::Steps;
use cm_io::{Got, MemSink, MemSource, NoMemory, Sink, Source};
use cm_run::{Stop, run_line_program};
use eg_router::Router;
use std::marker::Brand;
use std::sync::ledger::{Blank, Ledger};
use std::test::Fail;

// What is at the end of a run.
#[derive(Drop)]
pub struct Outcome {
    pub result: Result<(), Stop>,
    pub router: Router,
    pub keys: MemSource,
    pub screen: MemSink,
}

// A run over these keys, of which one may fail, on a screen with so much room.
pub(crate) fn outcome_of(
    runtime: &HostRuntime,
    keys: &[u8],
    failing_get: Option<u32>,
    room: u32,
) -> Result<Outcome, NoMemory> {
    let alloc = runtime.alloc();
    let mut router = Router::new(alloc)?;
    let mut source = MemSource::new(alloc, keys, failing_get)?;
    let mut screen = MemSink::new(alloc, room)?;
    let result = run_program::<MemSource, MemSink, Brand>(
        runtime,
        Blank::new(1),
        &mut router,
        &mut source,
        &mut screen,
    );
    Ok(Outcome {
        result,
        router,
        keys: source,
        screen,
    })
}

// Whether these keys are left, and no more.
pub(crate) fn leaves(keys: &mut MemSource, left: &[u8]) -> bool {
    for key in left {
        if keys.get() != Got::Byte(*key) {
            return false;
        }
    }
    keys.get() == Got::End
}

// Runs each case, the keys of a run that goes to its end and what it shows, and fails where one shows anything else.
pub(crate) fn try_cases(runtime: &HostRuntime, cases: &[(&[u8], &[u8])]) -> Result<(), Fail> {
    for (keys, screen) in cases {
        let mut outcome = outcome_of(runtime, keys, None, 4096)?;
        let is_so = outcome.result == Ok(())
            && outcome.screen.bytes() == *screen
            && leaves(&mut outcome.keys, b"");
        if !is_so {
            return Err(Fail::new(format_args!("after {:?}: {:?}", keys, outcome.screen.bytes())));
        }
    }
    Ok(())
}

// Makes the counter of trials, and runs the program.
pub(crate) fn run_program<K: Source, S: Sink, L: Ledger>(
    rt: &HostRuntime,
    blank: Blank,
    router: &mut Router,
    keys: &mut K,
    screen: &mut S,
) -> Result<(), Stop>
    requires name { blank.name ≡ L.name }
    requires parts { blank.parts ≡ L.parts }
    requires some { 0 < L.parts }
{
    let mut steps: Steps<L> = Steps::new(rt, blank);
    run_line_program(router, keys, screen, &mut steps)
}
