// A sink in memory.
ghost use Rattle.std.specs.Prelude.{◌≡◌, ◌≤◌, ◌↔◌, ◌+◌, ◌-◌, ◌++◌, [], length, take, IfOk};
ghost use Rattle.cm_io.specs.Fault.{PutCause, put_faults};
ghost use Rattle.cm_io.specs.Contents.{Adds, Bytes};

use crate::fault::raised;
use crate::reserved::Reserved;
use crate::{NoMemory, Put, Sink};
use std::alloc::Global;
use std::marker::Model;

/// A sink that holds its bytes in memory that is reserved for them.
#[derive(Drop)]
pub struct MemSink {
    bytes: Reserved,
    faults: u64,
}

impl Model for MemSink {
    ghost use Rattle.cm_io.specs.Memory.{SinkState};

    ghost Value = { SinkState };

    ghost view = { λ sink. record {
      bytes = sink.bytes.bytes;
      room = sink.bytes.room;
      faults = sink.faults;
    } };
}

impl MemSink {
    /// A sink with room for a number of bytes. A put that passes it puts what fits, and fails.
    pub fn new(alloc: Global, room: u32) -> Result<MemSink, NoMemory>
        ensures sink { IfOk result (λ sink. sink ≡ record { bytes = []; room = room; faults = 0 }) }
    {
        Ok(MemSink {
            bytes: Reserved::new(alloc, room as usize)?,
            faults: 0,
        })
    }

    /// The bytes that were put.
    pub fn bytes(&self) -> &[u8]
        ensures { result.now ≡ self.now.bytes }
    {
        self.bytes.bytes()
    }
}

impl Sink for MemSink {
    ghost contents = { λ sink. Bytes sink.bytes };

    ghost faults = { λ sink. sink.faults };

    #[tactic(auto, using(crate::proofs::Additions::adds_prefix), unfolding(crate::specs::Contents::add))]
    fn put(&mut self, bytes: &[u8]) -> Put
        ensures nothing { bytes.now ≡ [] → result ≡ Put.Done }
        ensures bytes { Adds (Bytes self.old.bytes) (Bytes self.new.bytes) bytes.now result }
        ensures later { self.old.faults ≤ self.new.faults }
        ensures cause { PutCause self.old.faults self.new.faults result }
        ensures done { (result ≡ Put.Done)
            ↔ (length self.old.bytes + length bytes.now ≤ self.old.room) }
        ensures leaves { self.new ≡ record self.old {
          bytes = self.old.bytes ++ take (self.old.room - length self.old.bytes) bytes.now;
          faults = put_faults self.old.faults result;
        } }
    {
        if self.bytes.append(bytes) {
            return Put::Done;
        }
        self.faults = raised(self.faults);
        Put::Failed
    }
}
