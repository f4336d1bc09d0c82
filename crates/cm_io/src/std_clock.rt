// The system's clock.
ghost use Rattle.std.specs.Prelude.{false, []};

use crate::Clock;
use std::time::{SystemTime, UNIX_EPOCH};

/// The system's clock. It gives 0 where the clock cannot be read or is before 1970.
#[derive(Drop)]
pub struct StdClock {
    /// The system.
    pub rt: HostRuntime,
}

impl Clock for StdClock {
    ghost tells = { false };

    ghost left = { λ _. [] };

    fn now(&mut self) -> u64 {
        let Ok(moment) = SystemTime::now(&self.rt) else {
            return 0;
        };
        match moment.duration_since(UNIX_EPOCH) {
            Ok(since) => since.as_secs(),
            Err(_) => 0,
        }
    }
}
