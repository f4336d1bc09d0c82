// What a hook answers.

use cm_fields::Reason;
use cm_text::Name;

/// Whether an atom is taken as a field.
#[derive(Clone, Copy, Debug, PartialEq, Eq)]
pub enum Answer {
    /// It is, and stands for this value.
    Yes(u64),
    /// It is not.
    No,
    /// It is not, for this reason.
    NoBecause(Reason),
}

/// How an atom goes on.
#[derive(Clone, Debug, Drop)]
pub enum Tail {
    /// In no one way.
    None,
    /// With these bytes, after which there are several ways or none.
    Part(Name),
    /// With these bytes, and then it is whole.
    Whole(Name),
}
