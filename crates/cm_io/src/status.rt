// How a run of a program ended.
ghost use Rattle.std.specs.Prelude.{◌≡◌};
ghost use Rattle.cm_io.specs.Status.{number_of};

/// The kinds of fault of a record of an image. Where several hold, the first of them is told.
#[derive(Clone, Copy, Debug, PartialEq, Eq)]
pub enum Kind {
    /// The bytes end before the record does.
    Cut,
    /// It is no record that may be here.
    Form,
    /// A number is outside its range.
    Range,
    /// It names a directory that no record before it makes.
    Name,
    /// It is not above the record of its kind before it.
    Order,
    /// It is one too many of its kind, or the files have too many bytes with it.
    Limit,
}

/// How a run of a program ended. A program over a store of files ends with one of these.
#[derive(Clone, Copy, Debug, PartialEq, Eq)]
pub enum Status {
    /// The run came to its end, and the image is written.
    Done,
    /// The words ask for nothing that the program does.
    Usage,
    /// The bytes of the file to begin from are no image.
    BadImage {
        /// Where the first wrong record begins: how many bytes are before it.
        at: u32,
        /// The kind of its fault.
        kind: Kind,
    },
    /// The host failed.
    HostFault,
    /// The keys could not be read on.
    ReadFault,
    /// The screen or the log could not be written on.
    WriteFault,
    /// Memory ran out.
    NoMemory,
    /// As many keys were taken as a run takes, and it had not ended.
    KeyLimit,
    /// The file to begin from is not there.
    NoImage,
    /// The file to begin from has more bytes than any image.
    ImageTooLarge,
    /// A line of a control file stopped the run. What stopped it is shown.
    Stopped,
}

impl Status {
    /// The number that the process ends with.
    pub fn number(self) -> u8
        ensures { result ≡ number_of self }
    {
        match self {
            Status::Done => 0,
            Status::Usage => 1,
            Status::BadImage { .. } => 2,
            Status::HostFault => 3,
            Status::ReadFault => 4,
            Status::WriteFault => 5,
            Status::NoMemory => 6,
            Status::KeyLimit => 7,
            Status::NoImage => 8,
            Status::ImageTooLarge => 9,
            Status::Stopped => 10,
        }
    }
}
