// Standard output and standard error, as screens.
ghost use Rattle.std.specs.Prelude.{◌≡◌};
ghost use Rattle.cm_io.specs.Contents.{Nothing};

use crate::fault::raised;
use crate::std_write::write_whole;
use crate::{Put, Sink};
use std::io::{Stderr, Stdout, Write};
use std::marker::Model;

/// A stream of the system, as a screen. Each put is written at once. Contracts see its faults.
#[derive(Drop)]
pub struct StreamSink<W> {
    output: W,
    faults: u64,
}

/// Standard output.
pub type StdSink = StreamSink<Stdout>;

/// Standard error, for a program whose standard output has what it found.
pub type StdErrorSink = StreamSink<Stderr>;

impl<W> Model for StreamSink<W> {
    ghost use Rattle.std.specs.Prelude.{ℕ};

    ghost Value = { ℕ };

    ghost view = { λ sink. sink.faults };
}

impl StreamSink<Stdout> {
    /// The standard output of this process.
    pub fn new(rt: &HostRuntime) -> StdSink
        ensures { result ≡ 0 }
    {
        StreamSink {
            output: rt.stdout(),
            faults: 0,
        }
    }
}

impl StreamSink<Stderr> {
    /// The standard error of this process.
    pub fn new(rt: &HostRuntime) -> StdErrorSink
        ensures { result ≡ 0 }
    {
        StreamSink {
            output: rt.stderr(),
            faults: 0,
        }
    }
}

impl<W: Write> Sink for StreamSink<W> {
    ghost contents = { λ _. Nothing };

    ghost faults = { λ sink. sink };

    #[tactic(auto, using(crate::proofs::Additions::adds_nothing), unfolding(crate::specs::Contents::add))]
    fn put(&mut self, bytes: &[u8]) -> Put {
        if bytes.is_empty() {
            return Put::Done;
        }
        if write_whole(&mut self.output, bytes) {
            return Put::Done;
        }
        self.faults = raised(self.faults);
        Put::Failed
    }
}
