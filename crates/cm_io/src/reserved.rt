// Bytes in memory that was reserved for them.
ghost use Rattle.std.specs.Prelude.{◌≡◌, ◌≤◌, ◌↔◌, ◌+◌, ◌-◌, ◌++◌, [], length, take, IsTrue, IfOk};

use std::alloc::{AllocError, Global};
use std::marker::Model;

// Bytes for which there is a fixed room.
#[derive(Drop)]
pub(crate) struct Reserved {
    bytes: Vec<u8>,
    room: usize,
}

impl Model for Reserved {
    ghost use Rattle.std.specs.Prelude.{◌≤◌, length, vec_capacity};
    ghost use Rattle.cm_io.specs.Memory.{Room};

    ghost Value = { Room };

    ghost view = { λ reserved. record { bytes = reserved.bytes.items; room = reserved.room } };

    ghost invariant = { λ reserved. (length reserved.bytes.items ≤ reserved.room)
        × (reserved.room ≤ vec_capacity reserved.bytes) };
}

impl Reserved {
    // No bytes, and room for a number of them.
    pub(crate) fn new(alloc: Global, room: usize) -> Result<Reserved, AllocError>
        ensures reserved { IfOk result (λ reserved. reserved ≡ record { bytes = []; room = room }) }
    {
        Ok(Reserved {
            bytes: Vec::with_capacity(alloc, room)?,
            room,
        })
    }

    pub(crate) fn bytes(&self) -> &[u8]
        ensures { result.now ≡ self.now.bytes }
    {
        &self.bytes
    }

    // Drops the bytes. The room stays.
    pub(crate) fn clear(&mut self)
        ensures { self.new ≡ record self.old { bytes = [] } }
    {
        self.bytes.clear();
    }

    // Appends what fits, and tells whether all did.
    pub(crate) fn append(&mut self, more: &[u8]) -> bool
        ensures nothing { more.now ≡ [] → IsTrue result }
        ensures all { IsTrue result ↔ (length self.old.bytes + length more.now ≤ self.old.room) }
        ensures appended { IsTrue result
            → self.new ≡ record self.old { bytes = self.old.bytes ++ more.now } }
        ensures prefix { self.new ≡ record self.old {
          bytes = self.old.bytes ++ take (self.old.room - length self.old.bytes) more.now;
        } }
    {
        let room = self.room - self.bytes.len();
        if more.len() <= room {
            let _ = self.bytes.extend_from_slice(more);
            return true;
        }
        let _ = self.bytes.extend_from_slice(&more[..room]);
        false
    }
}
