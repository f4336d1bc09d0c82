// The counter of trials.
ghost use Rattle.std.specs.Prelude.{◌≡◌, ℕ, ◌+◌, ◌<◌};

use std::marker::Model;
use std::sync::ledger::{Blank, Book, Ledger, Share};

/// How much the trials of `try_chain` have looked at: for each block that was tried the bytes it looked at,
/// and one. Only `try_chain` raises it. It cannot be cloned, and `new` wants the runtime, so that no call
/// without the runtime can make another. It takes no bytes.
#[derive(Drop)]
pub struct Steps<L: Ledger> {
    book: Book<L>,
    share: Share<L>,
}

impl<L: Ledger> Model for Steps<L> {
    ghost use Rattle.std.specs.Prelude.{ℕ, ◌<◌};

    ghost Value = { ℕ };

    ghost view = { λ steps. steps.book.total };

    ghost invariant = { λ steps. 0 < steps.share.parts };
}

impl<L: Ledger> Steps<L> {
    /// A counter that is at 0, for this ledger.
    pub fn new(_rt: &HostRuntime, blank: Blank) -> Steps<L>
        requires name { blank.name ≡ L.name }
        requires parts { blank.parts ≡ L.parts }
        requires some { 0 < L.parts }
        ensures { result ≡ 0 }
    {
        let (book, share) = blank.open::<L>();
        Steps { book, share }
    }

    // Raises the counter.
    pub(crate) fn add(&mut self, amount: u64)
        ensures { self.new ≡ self.old + amount }
    {
        self.book.add(&mut self.share, amount);
    }
}
