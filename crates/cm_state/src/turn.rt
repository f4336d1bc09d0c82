// The outcome of a key.
use cm_blocks::Fault;

/// The outcome of a key.
#[derive(Clone, Copy, Debug, PartialEq, Eq)]
pub enum Turn {
    /// The line may go on.
    Edited,
    /// The line is finished, and its parse is done.
    Confirmed,
    /// The line is finished, and its parse ended in this fault.
    Refused(Fault),
    /// The line was given up, by control-C.
    Abandoned,
    /// The sink failed in the midst of what the key shows. The session is where the key left it.
    Failed,
}
