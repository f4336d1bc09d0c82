// What a line of an image says.
ghost use Rattle.std.specs.Prelude.{◌≡◌};
ghost use Rattle.ex_image.specs.Reading.{tag_of};
ghost use Rattle.ex_image.specs.LineViews.{entry_said};

use crate::tag::Tag;
use crate::version::Version;

/// The name, type and generation of a file in a directory. The generation may be none that there is.
#[derive(Clone, Copy)]
pub(crate) struct FileName<'a> {
    pub(crate) directory: &'a str,
    pub(crate) name: &'a str,
    pub(crate) kind: &'a str,
    pub(crate) generation: u64,
}

/// How many generations a file keeps, when it was written, and when it was last read. Version 1 says only when it was
/// written: there the others are 0 and None.
#[derive(Clone, Copy)]
pub(crate) struct Stamp {
    pub(crate) keep: u64,
    pub(crate) moment: u64,
    pub(crate) read: Option<u64>,
}

/// A file without its bytes, how many they are, and in which version that is written.
#[derive(Clone, Copy)]
pub(crate) struct FileEntry<'a> {
    pub(crate) version: Version,
    pub(crate) file: FileName<'a>,
    pub(crate) deleted: bool,
    pub(crate) stamp: Stamp,
    pub(crate) size: u64,
}

/// An entry of the print queue.
#[derive(Clone, Copy)]
pub(crate) struct RequestEntry<'a> {
    pub(crate) file: FileName<'a>,
    pub(crate) copies: u64,
    pub(crate) form: u8,
    pub(crate) after: Option<u64>,
    pub(crate) job: &'a str,
    pub(crate) note: &'a str,
}

/// What a line says. Its names are of their forms; its numbers have at most ten digits, and may be outside their
/// ranges.
#[derive(Clone, Copy)]
pub(crate) enum Entry<'a> {
    /// An image begins, of this version.
    Head(Version),
    /// A directory, and how many generations it keeps.
    Directory { name: &'a str, retention: u64 },
    /// The connected directory.
    Connected { name: &'a str },
    /// A logical name and its directory.
    Logical { name: &'a str, directory: &'a str },
    /// A file, whose bytes follow the line.
    File(FileEntry<'a>),
    /// An entry of the print queue.
    Request(RequestEntry<'a>),
    /// The image ends.
    End,
}

impl Entry<'_> {
    /// The kind of its record.
    pub(crate) fn tag(&self) -> Tag
        ensures { result ≡ tag_of (entry_said self.now) }
    {
        match self {
            Entry::Head(_) => Tag::Head,
            Entry::Directory { .. } => Tag::Directory,
            Entry::Connected { .. } => Tag::Connected,
            Entry::Logical { .. } => Tag::Logical,
            Entry::File(_) => Tag::File,
            Entry::Request(_) => Tag::Request,
            Entry::End => Tag::End,
        }
    }
}
