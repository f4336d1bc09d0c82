// Why a run was cut short.

/// Why a run was cut short.
#[derive(Clone, Copy, Debug, PartialEq, Eq)]
pub enum Stop {
    /// The screen failed.
    Screen,
    /// The log failed.
    Log,
    /// The keys could not be read on.
    Keys,
    /// Memory ran out for an act.
    Memory,
    /// As many keys were taken as the run takes.
    Limit,
}
