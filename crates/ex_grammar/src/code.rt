// The codes of the EXEC's keywords.

/// The code of APPEND.
pub const APPEND: u16 = 1;

/// The code of BUILD.
pub const BUILD: u16 = 2;

/// The code of CONNECT.
pub const CONNECT: u16 = 3;

/// The code of COPY.
pub const COPY: u16 = 4;

/// The code of DEFINE.
pub const DEFINE: u16 = 5;

/// The code of DELETE.
pub const DELETE: u16 = 6;

/// The code of DIRECTORY.
pub const DIRECTORY: u16 = 7;

/// The code of EXPUNGE.
pub const EXPUNGE: u16 = 8;

/// The code of INFORMATION.
pub const INFORMATION: u16 = 9;

/// The code of LOGOUT, and of KJOB.
pub const LOGOUT: u16 = 10;

/// The code of PRINT.
pub const PRINT: u16 = 11;

/// The code of REMARK.
pub const REMARK: u16 = 12;

/// The code of RENAME.
pub const RENAME: u16 = 13;

/// The code of SET.
pub const SET: u16 = 17;

/// The code of TAKE.
pub const TAKE: u16 = 14;

/// The code of TYPE, and of T.
pub const TYPE: u16 = 15;

/// The code of UNDELETE.
pub const UNDELETE: u16 = 16;

/// The code of DIRECTORY as a topic of INFORMATION: the connected directory.
pub const DIRECTORY_TOPIC: u16 = 1;

/// The code of LOGICAL-NAMES, a topic of INFORMATION.
pub const LOGICAL_NAMES: u16 = 2;

/// The code of OUTPUT-REQUESTS, a topic of INFORMATION.
pub const OUTPUT_REQUESTS: u16 = 3;

/// The code of VERSION, a topic of INFORMATION.
pub const VERSION: u16 = 4;

/// The code of BEFORE, a subcommand of DIRECTORY.
pub const BEFORE: u16 = 1;

/// The code of DELETED, a subcommand of DIRECTORY.
pub const DELETED: u16 = 2;

/// The code of READ, a subcommand of DIRECTORY.
pub const READ: u16 = 4;

/// The code of SINCE, a subcommand of DIRECTORY.
pub const SINCE: u16 = 3;

/// The code of GENERATIONS, the subcommand of BUILD.
pub const GENERATIONS: u16 = 1;

/// The code of FILE, what SET sets something of.
pub const FILE: u16 = 1;

/// The code of GENERATION-RETENTION-COUNT, what SET FILE sets.
pub const GENERATION_RETENTION_COUNT: u16 = 1;

/// The code of the switch AFTER of PRINT.
pub const AFTER: u16 = 1;

/// The code of the switch COPIES of PRINT.
pub const COPIES: u16 = 2;

/// The code of the switch FORMS of PRINT.
pub const FORMS: u16 = 3;

/// The code of the switch JOBNAME of PRINT.
pub const JOBNAME: u16 = 4;

/// The code of the switch NOTE of PRINT.
pub const NOTE: u16 = 5;

// The code of a text that is no keyword: it makes itself ambiguous, or stands for another.
pub(crate) const NO_KEYWORD: u16 = 0;
