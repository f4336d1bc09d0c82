// What bytes are got from.
ghost use Rattle.std.specs.Prelude.{◌≡◌, ◌≤◌, ℕ, Bool, List, IsTrue};
ghost use Rattle.cm_io.specs.Fault.{next_count};
ghost use Rattle.cm_io.specs.Source.{Takes, GotCause};

/// What a get gave.
#[derive(Clone, Copy, Debug, PartialEq, Eq)]
pub enum Got {
    /// The next byte.
    Byte(u8),
    /// There is none left.
    End,
    /// The outside failed. No byte was taken.
    Failed,
}

/// What bytes are got from, one at a time: the keys.
pub trait Source {
    /// Whether objects of this type tell the bytes that they have left.
    ghost tells: { Bool };

    /// The bytes that are left.
    ghost left: { Self → List ℕ };

    /// How many gets it was asked. The count stays at its last value once that is reached.
    ghost gets: { Self → ℕ };

    /// How often it has failed. The count stays at its last value once that is reached.
    ghost faults: { Self → ℕ };

    /// Gets the next byte.
    fn get(&mut self) -> Got
        ensures asked { gets self.new ≡ next_count (gets self.old) }
        ensures bytes { IsTrue tells → Takes (left self.old) (left self.new) result }
        ensures later { faults self.old ≤ faults self.new }
        ensures cause { GotCause (faults self.old) (faults self.new) result };
}
