// A sink that counts.
ghost use Rattle.std.specs.Prelude.{◌≡◌, ◌≤◌, []};
ghost use Rattle.cm_io.specs.Fault.{PutCause};
ghost use Rattle.cm_io.specs.Contents.{Adds, Number};

use crate::{Put, Sink};
use std::marker::Model;

/// A sink that keeps the number of its bytes alone, and never fails.
#[derive(Drop)]
pub struct CountSink {
    count: u64,
}

impl Model for CountSink {
    ghost use Rattle.std.specs.Prelude.{ℕ};

    ghost Value = { ℕ };

    ghost view = { λ sink. sink.count };
}

impl CountSink {
    /// A sink that has counted nothing.
    pub fn new() -> CountSink
        ensures { result ≡ 0 }
    {
        CountSink { count: 0 }
    }

    /// The number of bytes that were put. It stays at 18446744073709551615 once that is reached.
    pub fn count(&self) -> u64
        ensures { result ≡ self.now }
    {
        self.count
    }
}

impl Sink for CountSink {
    ghost contents = { Number };

    ghost faults = { λ _. 0 };

    #[tactic(auto, unfolding(crate::specs::Contents::add))]
    fn put(&mut self, bytes: &[u8]) -> Put
        ensures nothing { bytes.now ≡ [] → result ≡ Put.Done }
        ensures bytes { Adds (Number self.old) (Number self.new) bytes.now result }
        ensures later { 0 ≤ 0 }
        ensures cause { PutCause 0 0 result }
        ensures done { result ≡ Put.Done }
    {
        let count = self.count;
        self.count = count.saturating_add(bytes.len() as u64);
        Put::Done
    }
}
