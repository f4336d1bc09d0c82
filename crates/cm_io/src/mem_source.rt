// A source in memory.
ghost use Rattle.std.specs.Prelude.{◌≡◌, ◌≤◌, ◌↔◌, true, IsTrue, Some, IfOk, option_copied};
ghost use Rattle.cm_io.specs.Fault.{next_count};
ghost use Rattle.cm_io.specs.Source.{Takes, GotCause, get_faults};

use crate::fault::raised;
use crate::{Got, NoMemory, Source};
use std::alloc::Global;
use std::collections::VecDeque;
use std::marker::Model;

/// A source that holds its bytes in memory. One get may be set to fail.
#[derive(Drop)]
pub struct MemSource {
    left: VecDeque<u8>,
    // the number of the get that fails
    fail: Option<u32>,
    gets: u64,
    faults: u64,
}

impl Model for MemSource {
    ghost use Rattle.cm_io.specs.Memory.{SourceState};

    ghost Value = { SourceState };

    ghost view = { λ source. record {
      left = source.left.items;
      fail = source.fail;
      gets = source.gets;
      faults = source.faults;
    } };
}

impl MemSource {
    /// A source of these bytes. The get with the number `fail`, counted from 0, fails.
    pub fn new(alloc: Global, bytes: &[u8], fail: Option<u32>) -> Result<MemSource, NoMemory>
        ensures source { IfOk result
            (λ source. source ≡ record { left = bytes.now; fail = fail; gets = 0; faults = 0 }) }
    {
        Ok(MemSource {
            left: VecDeque::from(bytes.to_vec(alloc)?),
            fail,
            gets: 0,
            faults: 0,
        })
    }
}

impl Source for MemSource {
    ghost tells = { true };

    ghost left = { λ source. source.left };

    ghost gets = { λ source. source.gets };

    ghost faults = { λ source. source.faults };

    fn get(&mut self) -> Got
        ensures asked { self.new.gets ≡ next_count self.old.gets }
        ensures bytes { IsTrue true → Takes self.old.left self.new.left result }
        ensures later { self.old.faults ≤ self.new.faults }
        ensures cause { GotCause self.old.faults self.new.faults result }
        ensures fails { (result ≡ Got.Failed) ↔ (self.old.fail ≡ Some self.old.gets) }
        ensures leaves { self.new ≡ record self.old {
          left = self.new.left;
          gets = next_count self.old.gets;
          faults = get_faults self.old.faults result;
        } }
    {
        let is_to_fail = match self.fail {
            Some(number) => u64::from(number) == self.gets,
            None => false,
        };
        self.gets = raised(self.gets);
        if is_to_fail {
            self.faults = raised(self.faults);
            return Got::Failed;
        }
        match self.left.pop_front() {
            Some(byte) => Got::Byte(byte),
            None => Got::End,
        }
    }
}
