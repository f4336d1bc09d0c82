// A run of the EXEC without words: the frame of runs over a store, with the form handed in.
ghost use Rattle.std.specs.Prelude.{◌≡◌, ◌<◌};

use cm_blocks::Steps;
use cm_io::{MemClock, MemHost, MemSink, MemSource, NoMemory};
use ex_program::{ExecProgram, Status};
use ex_run::run_program;
use ex_system::Form;
use ex_take::Exec;
use std::marker::Brand;
use std::sync::ledger::{Blank, Ledger};
use std::test::Fail;

const SHOWN: &[u8] = b"@L\r\n?Ambiguous keyword\r\n@LOG\r\nLogged out\r\n";

const LOGGED: &[u8] = b"4c 1 O\n0d 1 F2.0@0\n4c 1 O\n4f 2 O\n47 3 O\n0d 3 D 0.1k10@0-3\n";

// Runs over these keys, with a log.
fn run_over<L: Ledger>(
    rt: &HostRuntime,
    blank: Blank,
    host: &mut MemHost,
    keys: &mut MemSource,
    screen: &mut MemSink,
    log: &mut MemSink,
    clock: &mut MemClock,
) -> Status
    requires name { blank.name ≡ L.name }
    requires parts { blank.parts ≡ L.parts }
    requires some { 0 < L.parts }
{
    let form = Form {
        logs: true,
        input: None,
        out: "OUT",
    };
    let mut steps: Steps<L> = Steps::new(rt, blank);
    run_program::<Exec, ExecProgram, MemHost, MemSource, MemSink, MemSink, MemClock, L>(
        rt.alloc(),
        &form,
        host,
        keys,
        screen,
        log,
        clock,
        &mut steps,
    )
}

// Whether a run that LOGOUT ends is Done, and all that it leaves is as it is to be.
fn runs(rt: &HostRuntime) -> Result<bool, NoMemory> {
    let alloc = rt.alloc();
    let mut host = MemHost::new(alloc, "IN", None, 64, &[])?;
    let mut screen = MemSink::new(alloc, 64)?;
    let mut log = MemSink::new(alloc, 64)?;
    let status = run_over::<Brand>(
        rt,
        Blank::new(1),
        &mut host,
        &mut MemSource::new(alloc, b"L\rLOG\r", None)?,
        &mut screen,
        &mut log,
        &mut MemClock::new(alloc, &[])?,
    );
    Ok(
        status == Status::Done
            && screen.bytes() == SHOWN
            && log.bytes() == LOGGED
            && host.file("OUT") == Some(b"EXEC20 2\nD OPERATOR 1\nC OPERATOR\nE\n"),
    )
}

#[test]
fn runs_as_a_form_asks(rt: HostRuntime) -> Result<(), Fail> {
    assert!(rt; runs(&rt)?);
    Ok(())
}
