// The limits of a store, beside those of a file.

/// The most directories.
pub const DIRECTORY_LIMIT: usize = 64;

/// The most generations that a directory keeps of each name and type, where it does not keep all.
pub const RETENTION_LIMIT: u8 = 63;

/// The most logical names.
pub const LOGICAL_LIMIT: usize = 64;

/// The most files, each generation counted, deleted ones too.
pub const ROW_LIMIT: usize = 4_096;

/// The most bytes of all files together.
pub const STORE_LIMIT: usize = 8_388_608;

/// The last moment that a file has, in seconds since 1-JAN-1970: the last second of 31-DEC-2099.
pub const MOMENT_LIMIT: u64 = 4_102_444_799;

/// The most entries of the print queue.
pub const QUEUE_LIMIT: usize = 64;

/// The most copies of a request for printing.
pub const COPIES_LIMIT: u8 = 63;

/// The last day that a file in the print queue can have to wait for, in days since 1-JAN-1970: 31-DEC-2099.
pub const AFTER_LIMIT: i32 = 47_481;

/// How many forms there are to print on.
pub const FORMS: u8 = 3;
