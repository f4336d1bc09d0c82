// Faults with their places.
use crate::reason::Reason;

/// Where a line is wrong, and why.
#[derive(Clone, Copy, Debug, PartialEq, Eq)]
pub struct Fault {
    /// The place of the byte, from 0.
    pub place: usize,
    /// What is wrong there.
    pub reason: Reason,
}
