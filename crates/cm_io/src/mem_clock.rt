// A clock in memory.
ghost use Rattle.std.specs.Prelude.{◌≡◌, true, IfOk};

use crate::{Clock, NoMemory};
use std::alloc::Global;
use std::collections::VecDeque;
use std::marker::Model;

/// A clock that gives the moments it was made with, one after another.
#[derive(Drop)]
pub struct MemClock {
    moments: VecDeque<u64>,
}

impl Model for MemClock {
    ghost use Rattle.std.specs.Prelude.{ℕ, List};

    ghost Value = { List ℕ };

    ghost view = { λ clock. clock.moments.items };
}

impl MemClock {
    /// A clock of these moments, in seconds since 1-JAN-1970. The last is given again and again, and
    /// with none the moment is 0.
    pub fn new(alloc: Global, moments: &[u64]) -> Result<MemClock, NoMemory>
        ensures moments { IfOk result (λ clock. clock ≡ moments.now) }
    {
        Ok(MemClock {
            moments: VecDeque::from(moments.to_vec(alloc)?),
        })
    }
}

impl Clock for MemClock {
    ghost tells = { true };

    ghost left = { λ clock. clock };

    fn now(&mut self) -> u64 {
        if self.moments.len() > 1 {
            self.moments.pop_front().unwrap_or(0)
        } else {
            self.moments.front().copied().unwrap_or(0)
        }
    }
}
