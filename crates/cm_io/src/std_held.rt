// Bytes that are held, and leave in few writes.
use crate::std_write::write_whole;
use arrayvec::ArrayVec;
use std::io::Write;

// The most bytes that are held. The longest line of a log fits: 20 bytes for the key, the length, the ending and the
// line feed, and 42 for each of 64 fields.
const HELD_LIMIT: usize = 4096;

// Bytes that are still to be written, at most 4096.
#[derive(Drop)]
pub(crate) struct Held {
    bytes: ArrayVec<u8, HELD_LIMIT>,
}

impl Held {
    // No bytes.
    pub(crate) fn new() -> Held {
        Held {
            bytes: ArrayVec::new(),
        }
    }

    // Whether no bytes are held.
    pub(crate) fn is_empty(&self) -> bool {
        self.bytes.is_empty()
    }

    // Holds bytes behind those that are held. Where they do not fit these are written first, and what would not fit
    // alone is written too. Tells whether what was written was taken.
    pub(crate) fn add<W: Write>(&mut self, bytes: &[u8], output: &mut W) -> bool {
        if self.bytes.remaining_capacity() < bytes.len() && !self.hand_on(output) {
            return false;
        }
        match self.bytes.try_extend_from_slice(bytes) {
            Ok(()) => true,
            Err(_) => write_whole(output, bytes),
        }
    }

    // Writes what is held, and tells whether all was taken. Then nothing is held.
    pub(crate) fn hand_on<W: Write>(&mut self, output: &mut W) -> bool {
        let is_written = write_whole(output, self.bytes.as_slice());
        self.bytes.clear();
        is_written
    }

    // Forgets what is held.
    pub(crate) fn clear(&mut self) {
        self.bytes.clear();
    }
}
