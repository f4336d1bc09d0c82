// What is in the way of a call.
/// The highest generation is 131,071, and so no file can be added above it.
#[derive(Clone, Copy, Debug, PartialEq, Eq)]
pub struct GenFull;

/// There is no file of this generation.
#[derive(Clone, Copy, Debug, PartialEq, Eq)]
pub struct NoGen;
