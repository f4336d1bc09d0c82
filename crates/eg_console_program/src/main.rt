//! The program of `./console`: the run of the console over the standard streams.
#![tactic(auto)]

use cm_io::{StdSink, StdSource};
use cm_run::{Stop, run_over_streams, status_of};
use eg_console::Console;
use std::process::ExitCode;

/// Runs the console over the standard streams, and ends with its status.
fn main(rt: HostRuntime) -> ExitCode {
    let Ok(mut console) = Console::new(rt.alloc()) else {
        return ExitCode::from(status_of(Err(Stop::Memory)));
    };
    let mut keys = StdSource::new(&rt);
    let mut screen = StdSink::new(&rt);
    let outcome = run_over_streams(&rt, &mut console, &mut keys, &mut screen);
    ExitCode::from(status_of(outcome))
}
