// When OUT is created: behind the last get, which no clause says, since keys and host are objects apart.
use crate::given::{run_program, words_of};
use crate::notation::push_said;
use cm_io::{MemClock, MemHost, MemSink, MemSource, NoMemory};
use cm_io_tests::{Counted, Watcher};
use ex_program::{Status, Words};
use std::alloc::{AllocError, Global};
use std::cell::Cell;
use std::marker::Brand;
use std::sync::ledger::Blank;
use std::test::Fail;

// A run a line: the bytes of IN, or `-n` for none; the get that fails, or `-`; the room of the screen; the keys; and
// what comes of it: the status, how many gets there were where OUT was created, if it was, and how many in all.
const ORDERS: &str = "-n|-|99|LOGOUT{CR}X|Done Some(7) 7
-n|-|99|INF VER{CR}IN|Done Some(11) 11
-n|-|99|{}|Done Some(1) 1
{HEAD}E{LF}|-|99|INF|Done Some(4) 4
-n|0|99|LOGOUT{CR}|ReadFault Some(1) 1
-n|2|99|LOGOUT{CR}|ReadFault Some(3) 3
-n|-|0|LOGOUT{CR}|WriteFault Some(0) 0
-n|-|3|LOGOUT{CR}|WriteFault Some(3) 3
X|-|99|LOGOUT{CR}|BadImage { at: 0, kind: Cut } None 0";

// What comes of a run.
#[derive(Clone, Copy)]
struct Order {
    status: Status,
    created_at: Option<u64>,
    gets: u64,
}

// A run of which the gets are counted, and the count is noted where OUT is created.
fn order_of(
    runtime: &HostRuntime,
    words: &Words,
    host: MemHost,
    keys: MemSource,
    room: u32,
) -> Result<Order, NoMemory> {
    let alloc = runtime.alloc();
    let gets = Cell::new(0);
    let mut host = Watcher {
        held: host,
        calls: &gets,
        created_at: None,
    };
    let mut keys = Counted {
        held: keys,
        calls: &gets,
    };
    let status = run_program::<
        Watcher<'_, MemHost>,
        Counted<'_, MemSource>,
        MemSink,
        MemSink,
        MemClock,
        Brand,
    >(
        runtime,
        Blank::new(1),
        words,
        &mut host,
        &mut keys,
        &mut MemSink::new(alloc, room)?,
        &mut MemSink::new(alloc, 0)?,
        &mut MemClock::new(alloc, &[])?,
    );
    Ok(Order {
        status,
        created_at: host.created_at,
        gets: gets.get(),
    })
}

// The run of a line.
fn run_of(
    runtime: &HostRuntime,
    input: &str,
    get: &str,
    room: &str,
    keys: &str,
) -> Result<Order, NoMemory> {
    let alloc = runtime.alloc();
    let mut bytes = String::new(alloc);
    push_said(input, &mut bytes)?;
    let mut typed = String::new(alloc);
    push_said(keys, &mut typed)?;
    let first = if input == "-n" { "-n" } else { "IN" };
    order_of(
        runtime,
        &words_of(&[first, "OUT"]),
        MemHost::new(alloc, "IN", Some(bytes.as_bytes()), 99, &[])?,
        MemSource::new(alloc, typed.as_bytes(), get.parse().ok())?,
        room.parse().unwrap_or(0),
    )
}

// What a line says of it.
fn said_of(alloc: Global, order: &Order) -> Result<String, AllocError> {
    format!(in alloc; "{:?} {:?} {}", order.status, order.created_at, order.gets)
}

fn try_order(runtime: &HostRuntime, line: &str) -> Result<(), Fail> {
    let mut parts = line.split('|');
    let input = parts.next().unwrap_or("");
    let get = parts.next().unwrap_or("");
    let room = parts.next().unwrap_or("");
    let keys = parts.next().unwrap_or("");
    let order = run_of(runtime, input, get, room, keys)?;
    let is = said_of(runtime.alloc(), &order)?;
    if parts.next() == Some(is.as_str()) {
        return Ok(());
    }
    Err(Fail::new(format_args!("{is} in {line}")))
}

#[test]
fn creates_the_image_behind_the_last_key(rt: HostRuntime) -> Result<(), Fail> {
    for line in ORDERS.lines() {
        try_order(&rt, line)?;
    }
    Ok(())
}
