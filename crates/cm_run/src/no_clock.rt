// A clock for an application that takes no moment.
use cm_io::Clock;

/// A clock that gives the moment 0 each time it is asked, for an application whose lines take none.
#[derive(Drop)]
pub struct NoClock;

impl Clock for NoClock {
    ghost use Rattle.std.specs.Prelude.{true, []};

    ghost tells = { true };

    ghost left = { λ clock. [] };

    fn now(&mut self) -> u64 {
        0
    }
}
