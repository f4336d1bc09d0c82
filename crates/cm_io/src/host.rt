// What keeps files.
ghost use Rattle.std.specs.Prelude.{◌≡◌, ◌≤◌, ◌↔◌, ℕ, Bool, false, List, IsTrue};
ghost use Rattle.cm_io.specs.Host.{Files, KeepsOthers, Creates, Writes};
ghost use Rattle.cm_io.specs.Loading.{Loads, IsWithin, LoadCause};
ghost use Rattle.cm_io.specs.Fault.{PutCause, next_count};

use crate::Put;
use std::alloc::Global;

/// What loading a file gave.
#[derive(Drop)]
pub enum Loaded {
    /// All bytes of the file.
    Bytes(Vec<u8>),
    /// There is no such file.
    Absent,
    /// The file has more bytes than were asked for.
    TooLarge,
    /// The outside failed.
    Failed,
    /// There was not enough memory.
    NoMemory,
}

/// What keeps files. Each may be loaded whole. One at a time may be open, to be written from its beginning.
pub trait Host {
    /// Whether objects of this type tell their files.
    ghost tells: { Bool };

    /// What each name has, if anything.
    ghost files: { Self → Files };

    /// Whether a file is open.
    ghost is_open: { Self → Bool };

    /// The name of the open file.
    ghost target: { Self → List ℕ };

    /// How many loads it was asked. The count stays at its last value once that is reached.
    ghost loads: { Self → ℕ };

    /// How many creates it was asked. The count stays at its last value once that is reached.
    ghost creates: { Self → ℕ };

    /// How often it has failed. The count stays at its last value once that is reached.
    ghost faults: { Self → ℕ };

    /// Loads a file of at most `limit` bytes. The files stay, and what is open.
    fn load(&mut self, alloc: Global, name: &str, limit: u32) -> Loaded
        ensures bytes { IsTrue tells → Loads (files self.old name.now) limit result }
        ensures within { IsWithin limit result }
        ensures files { IsTrue tells → (name : List ℕ) → files self.new name ≡ files self.old name }
        ensures open { is_open self.new ≡ is_open self.old }
        ensures target { IsTrue tells → target self.new ≡ target self.old }
        ensures asked { loads self.new ≡ next_count (loads self.old) }
        ensures creates { creates self.new ≡ creates self.old }
        ensures later { faults self.old ≤ faults self.new }
        ensures cause { LoadCause (faults self.old) (faults self.new) result };

    /// Creates a file, in place of one that is there, and opens it. After Failed none is open, and
    /// the file is absent, as before, or empty.
    fn create(&mut self, name: &str) -> Put
        ensures opens { IsTrue (is_open self.new) ↔ (result ≡ Put.Done) }
        ensures target { IsTrue tells → result ≡ Put.Done → target self.new ≡ name.now }
        ensures file { IsTrue tells → Creates (files self.old name.now) (files self.new name.now) result }
        ensures others { IsTrue tells → KeepsOthers name.now (files self.old) (files self.new) }
        ensures asked { creates self.new ≡ next_count (creates self.old) }
        ensures loads { loads self.new ≡ loads self.old }
        ensures later { faults self.old ≤ faults self.new }
        ensures cause { PutCause (faults self.old) (faults self.new) result };

    /// Appends the bytes to the open file. After Failed a prefix of them is appended.
    fn write(&mut self, bytes: &[u8]) -> Put
        requires { IsTrue (is_open self.old) }
        ensures stays_open { IsTrue (is_open self.new) }
        ensures target { IsTrue tells → target self.new ≡ target self.old }
        ensures file { IsTrue tells → Writes (files self.old (target self.old))
            (files self.new (target self.old)) bytes.now result }
        ensures others { IsTrue tells → KeepsOthers (target self.old) (files self.old) (files self.new) }
        ensures loads { loads self.new ≡ loads self.old }
        ensures creates { creates self.new ≡ creates self.old }
        ensures later { faults self.old ≤ faults self.new }
        ensures cause { PutCause (faults self.old) (faults self.new) result };

    /// Closes the open file. Afterwards none is open, also after Failed.
    fn close(&mut self) -> Put
        requires { IsTrue (is_open self.old) }
        ensures closes { is_open self.new ≡ false }
        ensures files { IsTrue tells → (name : List ℕ) → files self.new name ≡ files self.old name }
        ensures loads { loads self.new ≡ loads self.old }
        ensures creates { creates self.new ≡ creates self.old }
        ensures later { faults self.old ≤ faults self.new }
        ensures cause { PutCause (faults self.old) (faults self.new) result };
}
