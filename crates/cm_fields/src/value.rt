// What a field stands for.

/// A part of a text: the bytes from `start` up to `end`, which is the place after the last.
#[derive(Clone, Copy, Debug, PartialEq, Eq)]
pub struct Span {
    /// The place of its first byte.
    pub start: u16,
    /// The place after its last byte.
    pub end: u16,
}

/// Which generations a file specification means (GTJFN).
#[derive(Clone, Copy, Debug, PartialEq, Eq)]
pub enum Gen {
    /// None is given.
    Missing,
    /// The highest that is there: `0`.
    Highest,
    /// One more than the highest: `-1`.
    Next,
    /// The lowest that is there: `-2`.
    Lowest,
    /// All that are there: `*` or `-3`.
    All,
    /// This one, from 1 to 131,071.
    Number(u32),
}

/// The parts of a file specification, `device:<directory>name.type.generation` (GTJFN), each where it is
/// given.
#[derive(Clone, Copy, Debug, PartialEq, Eq)]
pub struct Spec {
    /// The device, without its colon.
    pub device: Option<Span>,
    /// The directory, without its angle brackets.
    pub directory: Option<Span>,
    /// The name.
    pub name: Option<Span>,
    /// The type, without the point before it; empty after a point that nothing follows.
    pub kind: Option<Span>,
    /// The generation.
    pub generation: Gen,
}

/// What a file is wanted for.
#[derive(Clone, Copy, Debug, PartialEq, Eq)]
pub enum FileKind {
    /// To be read: it is there already (.CMIFI).
    In,
    /// To be written: it may be a new one (.CMOFI).
    Out,
    /// Either (.CMFIL).
    Any,
}

/// What a field stands for, by the function that took it (COMND). A span is a part of the text.
#[derive(Clone, Copy, Debug, PartialEq, Eq)]
pub enum Value {
    /// A keyword (.CMKEY): the position of its entry in the table, and the entry's code.
    Key {
        entry: u16,
        code: u16,
    },
    /// A switch (.CMSWI): the position of its entry in the table, and the entry's code.
    Switch {
        entry: u16,
        code: u16,
    },
    /// A guide word (.CMNOI), and whether it was typed.
    Noise(bool),
    /// A decimal number (.CMNUM), at most 34,359,738,367.
    Number(u64),
    /// One of some numbers in a radix (.CMNUM).
    Integer(i64),
    /// A word, or a run of the bytes of a set (.CMFLD).
    Word(Span),
    /// A quoted text (.CMQST), without its outer quotes; a quote inside stands twice.
    Quoted(Span),
    /// A fixed text (.CMTOK).
    Token,
    /// A date (.CMTAD): its day, 0 for 1-JAN-1970.
    Date(i32),
    /// A user (.CMUSR): the number of its directory.
    User(u16),
    /// A directory that is there (.CMDIR): its number.
    Directory(u16),
    /// The name of a directory that may be a new one (.CMDIR).
    NewDirectory(Span),
    /// A file specification (.CMIFI, .CMOFI, .CMFIL): what the file is wanted for, the parts that are given, and
    /// the number of the directory that it means.
    File {
        kind: FileKind,
        spec: Spec,
        directory: u16,
    },
    /// The rest of the line (.CMTXT).
    Text(Span),
    /// A comma (.CMCMA).
    Comma,
    /// The end of the line (.CMCFM).
    Confirm,
    /// What a function of the program's own made of the field: its id, and the value.
    Hook {
        id: u8,
        value: u64,
    },
}
