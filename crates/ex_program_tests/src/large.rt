// Runs from a file that is too large, or for which memory is wanting.
ghost use Rattle.std.specs.Prelude.{false, None};

use crate::given::{run_program, words_of};
use cm_io::{Host, Loaded, MemClock, MemHost, MemSink, MemSource, NoMemory, Put};
use ex_program::Status;
use std::alloc::Global;
use std::marker::Brand;
use std::sync::ledger::Blank;
use std::test::Fail;

// A host of which each file has so many bytes, that holds none of them and has no memory for one. What is written goes
// to a host in memory.
#[derive(Drop)]
struct LargeHost {
    size: u32,
    loads: u64,
    held: MemHost,
}

impl Host for LargeHost {
    ghost tells = { false };

    ghost files = { λ host name. None };

    ghost is_open = { λ host. host.held.is_open };

    ghost target = { λ host. host.held.output_name };

    ghost loads = { λ host. host.loads };

    ghost creates = { λ host. host.held.creates };

    ghost faults = { λ host. host.held.faults };

    fn load(&mut self, _alloc: Global, _name: &str, limit: u32) -> Loaded {
        self.loads = self.loads.saturating_add(1);
        if self.size > limit {
            return Loaded::TooLarge;
        }
        Loaded::NoMemory
    }

    fn create(&mut self, name: &str) -> Put {
        self.held.create(name)
    }

    fn write(&mut self, bytes: &[u8]) -> Put {
        self.held.write(bytes)
    }

    fn close(&mut self) -> Put {
        self.held.close()
    }
}

// Whether a run from a file of so many bytes has this status, shows this message, and does nothing else.
fn is_refused(
    runtime: &HostRuntime,
    size: u32,
    status: Status,
    message: &[u8],
) -> Result<bool, NoMemory> {
    let alloc = runtime.alloc();
    let mut host = LargeHost {
        size,
        loads: 0,
        held: MemHost::new(alloc, "IN", None, 64, &[])?,
    };
    let mut screen = MemSink::new(alloc, 64)?;
    let mut log = MemSink::new(alloc, 64)?;
    let is = run_program::<LargeHost, MemSource, MemSink, MemSink, MemClock, Brand>(
        runtime,
        Blank::new(1),
        &words_of(&["-w", "IN", "OUT"]),
        &mut host,
        &mut MemSource::new(alloc, b"LOG\r", None)?,
        &mut screen,
        &mut log,
        &mut MemClock::new(alloc, &[])?,
    );
    Ok(
        is == status
            && screen.bytes() == message
            && log.bytes().is_empty()
            && host.held.output().is_none(),
    )
}

// One byte more than an image may have.
#[test]
fn refuses_a_file_of_more_bytes_than_an_image(rt: HostRuntime) -> Result<(), Fail> {
    assert!(rt;
        is_refused(
            &rt,
            16_777_217,
            Status::ImageTooLarge,
            b"?Image too large\r\n"
        )?
    );
    Ok(())
}

// A file that is not too large is read, and there is no memory for it.
#[test]
fn says_that_memory_is_wanting(rt: HostRuntime) -> Result<(), Fail> {
    assert!(rt; is_refused(&rt, 16_777_216, Status::NoMemory, b"?No memory\r\n")?);
    Ok(())
}
