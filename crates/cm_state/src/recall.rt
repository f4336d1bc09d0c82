// The line that control-H brings back.
ghost use Rattle.std.specs.Prelude.{◌≡◌, None, Some, is_some, take};
ghost use Rattle.std.specs.Option.{option_copied};

use cm_line::Line;
use std::marker::Model;

// The line that control-H brings back, where there is one. It stays in its place, so that a key which forgets it
// clears no byte, and bytes are copied only after a refusal. Contracts see it as an `Option`.
#[derive(Drop)]
pub(crate) struct Recall {
    line: Line,
    is_held: bool,
}

impl Model for Recall {
    ghost use Rattle.std.specs.Prelude.{ℕ, List, None, Option, Some, if◌then◌else◌};

    ghost Value = { Option (List ℕ) };

    ghost view = { λ recall. if recall.is_held then Some recall.line else None };
}

impl Recall {
    // No line.
    pub(crate) fn new() -> Recall
        ensures { result ≡ None }
    {
        Recall {
            line: Line::new(),
            is_held: false,
        }
    }

    // Whether there is one.
    pub(crate) fn is_some(&self) -> bool
        ensures { result ≡ is_some self.now }
    {
        self.is_held
    }

    // The line, where there is one.
    pub(crate) fn line(&self) -> Option<&Line>
        ensures { option_copied result ≡ self.now }
    {
        if self.is_held { Some(&self.line) } else { None }
    }

    // Forgets the line.
    pub(crate) fn forget(&mut self)
        ensures { self.new ≡ None }
    {
        self.is_held = false;
    }

    // Holds the first bytes of a line.
    #[tactic(auto, using(crate::proofs::Lines::prefix_is_line))]
    pub(crate) fn hold(&mut self, line: &Line, size: usize)
        ensures { self.new ≡ Some (take size line.now) }
    {
        let bytes = line.bytes();
        self.line.set(&bytes[..size.min(bytes.len())]);
        self.is_held = true;
    }
}
