// One generation of a file, and the limits.
use crate::Bytes;

/// The highest generation of a file.
pub const GENERATION_LIMIT: u32 = 131_071;

/// The most bytes of a file.
pub const FILE_LIMIT: usize = 65_536;

/// The bytes of a page: 512 words of five characters.
pub const PAGE_BYTES: usize = 2_560;

/// One generation of a file.
#[derive(Debug, Drop)]
pub struct File {
    /// Its number, from 1 to 131,071.
    pub generation: u32,
    /// Whether it is marked as deleted, until it is expunged.
    pub deleted: bool,
    /// How many unmarked files stay when this one is added: 0 for all. The store keeps it at most 63.
    pub keep: u8,
    /// When it was written, in seconds since 1-JAN-1970.
    pub moment: u64,
    /// When it was last read, in seconds since 1-JAN-1970; None where it was not.
    pub read: Option<u64>,
    /// What it holds, at most 65,536 bytes.
    pub bytes: Bytes,
}

/// What may change of a file that stays as it was written.
#[derive(Clone, Copy, Debug)]
pub enum Remark {
    /// Whether it is marked as deleted.
    Deleted(bool),
    /// How many unmarked files stay when it is added.
    Keep(u8),
    /// When it was last read, in seconds since 1-JAN-1970.
    Read(u64),
}
