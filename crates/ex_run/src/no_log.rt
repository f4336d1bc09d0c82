// A log for a program that has none.
use cm_io::{Put, Sink};

/// A log for a program that writes none: it tells nothing and never fails.
#[derive(Drop)]
pub struct NoLog;

impl Sink for NoLog {
    ghost use Rattle.cm_io.specs.Contents.{Nothing};

    ghost contents = { λ _. Nothing };

    ghost faults = { λ _. 0 };

    #[tactic(auto, unfolding(cm_io::specs::Contents::add))]
    fn put(&mut self, _bytes: &[u8]) -> Put {
        Put::Done
    }
}
