// When OUT is created: after the last key that the run asks for.
use crate::given::run_program;
use cm_io::{MemClock, MemHost, MemSink, MemSource, NoMemory};
use cm_io_tests::{Counted, Watcher};
use mm_mail::{Status, Words};
use std::cell::Cell;
use std::marker::Brand;
use std::sync::ledger::Blank;
use std::test::Fail;

const INPUT: &[u8] = b"EXEC20 2\nD A 1\nD OPERATOR 1\nC A\nE\n";

// How a run over keys ends, how often it asked for one, and how often before OUT was created.
fn creates(runtime: &HostRuntime, keys: &[u8]) -> Result<(Status, u64, Option<u64>), NoMemory> {
    let alloc = runtime.alloc();
    let calls = Cell::new(0);
    let mut keys = Counted {
        held: MemSource::new(alloc, keys, None)?,
        calls: &calls,
    };
    let mut host = Watcher {
        held: MemHost::new(alloc, "IN", Some(INPUT), 4096, &[])?,
        calls: &calls,
        created_at: None,
    };
    let mut screen = MemSink::new(alloc, 4096)?;
    let mut clock = MemClock::new(alloc, &[1, 2, 3, 4])?;
    let mut words = Words::new();
    words.push("IN");
    words.push("OUT");
    let status = run_program::<
        Watcher<'_, MemHost>,
        Counted<'_, MemSource>,
        MemSink,
        MemClock,
        Brand,
    >(
        runtime,
        Blank::new(1),
        &words,
        &mut host,
        &mut keys,
        &mut screen,
        &mut clock,
    );
    Ok((status, calls.get(), host.created_at))
}

// After QUIT no key is asked for, and else one more than there are.
#[test]
fn the_image_is_begun_after_the_last_key(rt: HostRuntime) -> Result<(), Fail> {
    for (keys, gets) in [
        (b"".as_slice(), 1),
        (b"Q\r".as_slice(), 2),
        (b"HEADERS\r".as_slice(), 9),
        (b"S A \"B\"\rX\x1aQ\r".as_slice(), 12),
        (b"S A \"B\"\rX".as_slice(), 10),
    ] {
        let (status, asked, created_at) = creates(&rt, keys)?;
        assert_eq!(rt; status, Status::Done);
        assert_eq!(rt; asked, gets);
        assert_eq!(rt; created_at, Some(gets));
    }
    Ok(())
}
