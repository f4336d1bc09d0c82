// When OUT is created: after the image was loaded and all lines were shown and done, and before it is shown why the run
// was stopped. Screen, clock and host share a count of calls.
use crate::given::run_program;
use cm_io::{MemClock, MemHost, MemSink};
use cm_io_tests::{Counted, Watcher};
use ex_batch::{Status, Words};
use std::cell::Cell;
use std::marker::Brand;
use std::sync::ledger::Blank;
use std::test::Fail;

// What a run came to, how many calls of screen and clock there were, and of these how many before OUT was created.
#[derive(Debug, Drop)]
struct Order {
    status: Status,
    calls: u64,
    created_at: Option<u64>,
}

// A run of the control file of an image.
fn order_of(rt: &HostRuntime, image: &[u8]) -> Result<Order, Fail> {
    let alloc = rt.alloc();
    let calls = Cell::new(0);
    let mut words = Words::new();
    words.push("IN");
    words.push("OUT");
    words.push("JOB.CTL");
    let mut screen = Counted {
        held: MemSink::new(alloc, 4096)?,
        calls: &calls,
    };
    let mut clock = Counted {
        held: MemClock::new(alloc, &[1])?,
        calls: &calls,
    };
    let mut host = Watcher {
        held: MemHost::new(alloc, "IN", Some(image), 4096, &[])?,
        calls: &calls,
        created_at: None,
    };
    let status = run_program::<
        Watcher<'_, MemHost>,
        Counted<'_, MemSink>,
        Counted<'_, MemClock>,
        Brand,
    >(
        rt,
        Blank::new(1),
        &words,
        &mut host,
        &mut screen,
        &mut clock,
    );
    Ok(Order {
        status,
        calls: calls.get(),
        created_at: host.created_at,
    })
}

const HEAD: &str = "EXEC20 2\nD OPERATOR 1\nC OPERATOR\n";

// Nothing is shown after OUT is created.
#[test]
fn out_is_created_after_all_lines(rt: HostRuntime) -> Result<(), Fail> {
    let image = format!(in rt.alloc();
        "{HEAD}F OPERATOR JOB.CTL.1 U 1 0 - 20\n@INF VER\n@DEL JOB.*\n\nE\n"
    )?;
    let order = order_of(&rt, image.as_bytes())?;
    let is_last = order.status == Status::Done && order.created_at == Some(order.calls);
    if is_last && order.calls > 3 {
        return Ok(());
    }
    Err(Fail::new(format_args!("{order:?}")))
}

// Why the run was stopped is shown after it, and the line before.
#[test]
fn out_is_created_before_it_is_told_why(rt: HostRuntime) -> Result<(), Fail> {
    let image = format!(in rt.alloc(); "{HEAD}F OPERATOR JOB.CTL.1 U 1 0 - 4\nLOG\n\nE\n")?;
    let order = order_of(&rt, image.as_bytes())?;
    let is_between = order.created_at > Some(0) && order.created_at < Some(order.calls);
    if order.status == Status::Stopped && is_between {
        return Ok(());
    }
    Err(Fail::new(format_args!("{order:?}")))
}

// No image is read, and OUT is not created.
#[test]
fn out_is_not_created_without_an_image(rt: HostRuntime) -> Result<(), Fail> {
    let order = order_of(&rt, b"EXEC20 3\n")?;
    if order.created_at.is_none() && order.calls > 0 {
        return Ok(());
    }
    Err(Fail::new(format_args!("{order:?}")))
}
