// Runs with as many keys as a run takes.
ghost use Rattle.std.specs.Prelude.{[], false};
ghost use Rattle.cm_io.specs.Contents.{Nothing};

use crate::given::{run_program, words_of};
use cm_io::{Got, MemClock, MemHost, MemSink, NoMemory, Put, Sink, Source};
use ex_program::Status;
use std::marker::Brand;
use std::sync::ledger::Blank;
use std::test::Fail;

const LIMIT: u64 = 16_777_216;

// A source that gives control-Z again and again, and counts.
#[derive(Drop)]
struct Endless {
    gets: u64,
}

impl Source for Endless {
    ghost tells = { false };

    ghost left = { λ _. [] };

    ghost gets = { λ source. source.gets };

    ghost faults = { λ _. 0 };

    fn get(&mut self) -> Got {
        self.gets = self.gets.saturating_add(1);
        Got::Byte(b'Z' - 64)
    }
}

// A screen that holds the bytes after so many puts.
#[derive(Drop)]
struct LateScreen {
    puts: u64,
    late: MemSink,
}

impl Sink for LateScreen {
    ghost contents = { λ _. Nothing };

    ghost faults = { λ screen. screen.late.faults };

    #[tactic(auto, using(cm_io::proofs::Additions::adds_nothing), unfolding(cm_io::specs::Contents::add))]
    fn put(&mut self, bytes: &[u8]) -> Put {
        if self.puts > 0 {
            self.puts -= 1;
            return Put::Done;
        }
        self.late.put(bytes)
    }
}

// Whether a run over endless keys, on a screen with so much room after the prompt and a BEL for each key,
// ends with this message.
fn ends_with(runtime: &HostRuntime, room: u32, message: &[u8]) -> Result<bool, NoMemory> {
    let alloc = runtime.alloc();
    let mut keys = Endless { gets: 0 };
    let mut screen = LateScreen {
        puts: 1 + LIMIT,
        late: MemSink::new(alloc, room)?,
    };
    let mut log = MemSink::new(alloc, 0)?;
    let mut host = MemHost::new(alloc, "IN", None, 64, &[])?;
    let status = run_program::<MemHost, Endless, LateScreen, MemSink, MemClock, Brand>(
        runtime,
        Blank::new(1),
        &words_of(&["-n", "OUT"]),
        &mut host,
        &mut keys,
        &mut screen,
        &mut log,
        &mut MemClock::new(alloc, &[])?,
    );
    Ok(
        status == Status::KeyLimit
            && keys.gets == LIMIT
            && screen.puts == 0
            && screen.late.bytes() == message
            && host.file("OUT") == Some(b"EXEC20 2\nD OPERATOR 1\nC OPERATOR\nE\n"),
    )
}

// [key-limit]
#[test]
fn takes_no_more_keys_than_its_limit(rt: HostRuntime) -> Result<(), Fail> {
    assert!(rt; ends_with(&rt, 32, b"\r\n?Too many keys\r\n")?);
    Ok(())
}

#[test]
fn stays_at_its_limit_where_no_message_fits(rt: HostRuntime) -> Result<(), Fail> {
    assert!(rt; ends_with(&rt, 0, b"")?);
    Ok(())
}
