// Standard error, a line at a time.
ghost use Rattle.std.specs.Prelude.{◌≡◌};
ghost use Rattle.cm_io.specs.Contents.{Nothing};

use crate::fault::raised;
use crate::std_held::Held;
use crate::std_write::write_whole;
use crate::{Put, Sink};
use std::io::Stderr;
use std::marker::Model;

/// Standard error, for a log. The bytes are held until a line feed is put, and then all leave as one write. So the
/// put of the line feed is the one that fails where the system does; also after that, nothing is held any more.
/// What no longer fits, 4096 bytes, is written before the line feed comes. Where a program stops in the midst of
/// a line, the bytes since the last line feed are still held, and are never written. Contracts see its faults.
#[derive(Drop)]
pub struct StdLog {
    output: Stderr,
    held: Held,
    faults: u64,
}

impl Model for StdLog {
    ghost use Rattle.std.specs.Prelude.{ℕ};

    ghost Value = { ℕ };

    ghost view = { λ log. log.faults };
}

impl StdLog {
    /// The standard error of this process, nothing held.
    pub fn new(rt: &HostRuntime) -> StdLog
        ensures { result ≡ 0 }
    {
        StdLog {
            output: rt.stderr(),
            held: Held::new(),
            faults: 0,
        }
    }

    // Takes bytes. Where nothing is held and they have a line feed they are written as they come, with no copy.
    // Tells whether what was written was taken.
    fn take(&mut self, bytes: &[u8]) -> bool
        ensures { self.new ≡ self.old }
    {
        if self.held.is_empty() && has_line_feed(bytes) {
            return write_whole(&mut self.output, bytes);
        }
        self.held.add(bytes, &mut self.output)
            && (!has_line_feed(bytes) || self.held.hand_on(&mut self.output))
    }
}

impl Sink for StdLog {
    ghost contents = { λ _. Nothing };

    ghost faults = { λ log. log };

    #[tactic(auto, using(crate::proofs::Additions::adds_nothing), unfolding(crate::specs::Contents::add))]
    fn put(&mut self, bytes: &[u8]) -> Put {
        if bytes.is_empty() {
            return Put::Done;
        }
        if self.take(bytes) {
            return Put::Done;
        }
        self.faults = raised(self.faults);
        Put::Failed
    }
}

// Whether a line feed is among the bytes; nearly always it is the last.
fn has_line_feed(bytes: &[u8]) -> bool {
    bytes.last() == Some(&b'\n') || bytes.contains(&b'\n')
}
