// Runs of the console that go to their ends.
use cm_io::{MemSink, MemSource, NoMemory};
use cm_run::run_over_streams;
use eg_console::Console;
use std::test::Fail;

// Runs each case, keys and what they show, and fails where one shows anything else.
pub(crate) fn try_cases(runtime: &HostRuntime, cases: &[(&[u8], &[u8])]) -> Result<(), Fail> {
    for (keys, wanted) in cases {
        let screen = screen_of(runtime, keys)?;
        if screen.bytes() != *wanted {
            return Err(Fail::new(format_args!("after {:?}: {:?}", keys, screen.bytes())));
        }
    }
    Ok(())
}

fn screen_of(runtime: &HostRuntime, keys: &[u8]) -> Result<MemSink, NoMemory> {
    let alloc = runtime.alloc();
    let mut console = Console::new(alloc)?;
    let mut keys = MemSource::new(alloc, keys, None)?;
    let mut screen = MemSink::new(alloc, 4096)?;
    match run_over_streams(runtime, &mut console, &mut keys, &mut screen) {
        Ok(()) => Ok(screen),
        Err(_) => Err(NoMemory),
    }
}
