// What a store is asked to do.
use crate::{Place, Request};
use cm_fields::Code;
use cm_text::Name;
use ex_generations::Bytes;

/// What a store is asked to do: all of it, or nothing.
#[derive(Debug, Drop)]
pub enum Plan {
    /// A directory is made that keeps so many generations of each name and type, one where nothing is said; or a
    /// directory that is there keeps another number from now on.
    Build {
        directory: Name,
        retention: Option<u8>,
    },
    /// A logical name stands for a directory, whatever it stood for before. Letters have no case, and the name is kept
    /// in upper case.
    Define {
        name: Name,
        directory: Name,
    },
    /// Files are copied.
    Copy {
        from: Place,
        to: Place,
    },
    /// Files are given other names.
    Rename {
        from: Place,
        to: Place,
    },
    /// The bytes of files are put after those of one file.
    Append {
        from: Place,
        to: Place,
    },
    /// A file is written.
    Write {
        to: Place,
        bytes: Bytes,
    },
    /// Files are put into the print queue, after those that are in it.
    Print {
        files: Place,
        request: Request,
    },
}

/// Why a plan is not done.
#[derive(Clone, Copy, Debug, PartialEq, Eq)]
pub enum Refusal {
    /// It is refused.
    Code(Code),
    /// There is no memory for it.
    NoMemory,
}
