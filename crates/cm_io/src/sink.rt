// What bytes are put to.
ghost use Rattle.std.specs.Prelude.{◌≡◌, ◌≤◌, ℕ, []};
ghost use Rattle.cm_io.specs.Contents.{Contents, Adds};
ghost use Rattle.cm_io.specs.Fault.{PutCause};

/// How a put, or another call that writes, went.
#[derive(Clone, Copy, Debug, PartialEq, Eq)]
pub enum Put {
    /// All of it was done.
    Done,
    /// The outside failed. A prefix of the bytes may have been taken.
    Failed,
}

/// What bytes are put to: a screen, a log.
pub trait Sink {
    /// What it tells of the bytes that it was given.
    ghost contents: { Self → Contents };

    /// How often it has failed. The count stays at its last value once that is reached.
    ghost faults: { Self → ℕ };

    /// Puts the bytes after those that were put before. To put no bytes cannot fail.
    fn put(&mut self, bytes: &[u8]) -> Put
        ensures nothing { bytes.now ≡ [] → result ≡ Put.Done }
        ensures bytes { Adds (contents self.old) (contents self.new) bytes.now result }
        ensures later { faults self.old ≤ faults self.new }
        ensures cause { PutCause (faults self.old) (faults self.new) result };
}
