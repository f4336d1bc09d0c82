// Bytes that go into a line.
ghost use Rattle.std.specs.Prelude.{◌≡◌, ◌+◌, ◌≤◌, List, [], ◌++◌, length};

use arrayvec::ArrayVec;
use cm_text::LINE_LIMIT;
use std::marker::Model;

/// Bytes that go into a line, at most 255. Contracts see the list of them.
#[derive(Clone, Debug, Drop)]
pub struct Bytes {
    items: ArrayVec<u8, LINE_LIMIT>,
}

impl Model for Bytes {
    ghost use Rattle.std.specs.Prelude.{ℕ, List};

    ghost Value = { List ℕ };

    ghost view = { λ bytes. bytes.items.items };
}

impl Bytes {
    /// No bytes.
    pub fn new() -> Bytes
        ensures { result ≡ [] }
    {
        Bytes {
            items: ArrayVec::new(),
        }
    }

    // A copy of these bytes.
    pub(crate) fn of(bytes: &[u8]) -> Bytes
        requires { length bytes.now ≤ LINE_LIMIT }
        ensures { result ≡ bytes.now }
    {
        let mut copy = Bytes::new();
        copy.append(bytes);
        copy
    }

    /// The bytes as a slice.
    pub fn as_slice(&self) -> &[u8]
        ensures value { result.now ≡ self.now }
        ensures within { length result.now ≤ LINE_LIMIT }
    {
        self.items.as_slice()
    }

    // Puts more bytes after them.
    pub(crate) fn append(&mut self, more: &[u8])
        requires { length self.old + length more.now ≤ LINE_LIMIT }
        ensures { self.new ≡ self.old ++ more.now }
    {
        let _ = self.items.try_extend_from_slice(more);
    }
}
