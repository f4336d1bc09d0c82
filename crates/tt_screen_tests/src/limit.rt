// A run over as many bytes as a run takes.
ghost use Rattle.std.specs.Prelude.{[], false};

use cm_io::{Got, MemSink, Source};
use std::test::Fail;
use tt_screen::{Status, tt20};

// A source that gives BEL again and again, and counts.
#[derive(Drop)]
struct Endless {
    gets: u64,
}

impl Source for Endless {
    ghost tells = { false };

    ghost left = { λ _. [] };

    ghost gets = { λ source. source.gets };

    ghost faults = { λ _. 0 };

    fn get(&mut self) -> Got {
        self.gets = self.gets.saturating_add(1);
        Got::Byte(7)
    }
}

#[test]
fn takes_no_more_bytes_than_its_limit(rt: HostRuntime) -> Result<(), Fail> {
    let mut keys = Endless { gets: 0 };
    let mut screen = MemSink::new(rt.alloc(), 64)?;
    assert_eq!(rt; tt20(&mut keys, &mut screen), Status::KeyLimit);
    assert_eq!(rt; keys.gets, 16_777_216);
    assert_eq!(rt; screen.bytes(), b"?Too many keys\r\n".as_slice());
    Ok(())
}
