// What tells the time.
ghost use Rattle.std.specs.Prelude.{◌≡◌, ℕ, Bool, List, IsTrue};
ghost use Rattle.cm_io.specs.Clock.{next_moment, later_moments};

/// What tells the time. It cannot fail.
pub trait Clock {
    /// Whether objects of this type tell the moments that are to come.
    ghost tells: { Bool };

    /// The moments to come.
    ghost left: { Self → List ℕ };

    /// The moment, in seconds since 1-JAN-1970.
    fn now(&mut self) -> u64
        ensures moment { IsTrue tells → result ≡ next_moment (left self.old) }
        ensures later { IsTrue tells → left self.new ≡ later_moments (left self.old) };
}
