// Retention counts.
ghost use Rattle.std.specs.Prelude.{◌≡◌};
ghost use Rattle.ex_grammar.specs.RetentionCount.{retention_verdict};

use cm_fields::{are_digits, value_of};
use cm_hooks::Answer;

// The most generations of a file that a directory may keep.
const MOST_KEPT: u64 = 63;

// Whether an atom is a number of generations to keep.
#[tactic(auto, unfolding(crate::specs::RetentionCount::retention_verdict))]
pub(crate) fn retention_verdict(atom: &[u8]) -> Answer
    ensures { result ≡ retention_verdict atom.now }
{
    if atom.is_empty() || !are_digits(atom) {
        return Answer::No;
    }
    match value_of(atom, MOST_KEPT) {
        Some(value) => Answer::Yes(value),
        None => Answer::No,
    }
}
