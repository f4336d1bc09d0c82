// What a block reads, and what its field is for.
use cm_fields::Numbers;
use cm_text::{ByteSet, Name};

/// A function of COMND: what a block reads. A number names a table of the grammar, or a hook.
#[derive(Clone, Debug, Drop)]
pub enum Function {
    /// A keyword of this table (.CMKEY).
    Key(u16),
    /// A switch of this table, `/` and its name, and a colon where a value follows (.CMSWI).
    Switch(u16),
    /// This guide word in parentheses, or nothing (.CMNOI).
    Noise(Name),
    /// A decimal number (.CMNUM).
    Number,
    /// One of these numbers, in their radix (.CMNUM).
    Numeral(Numbers),
    /// A word (.CMFLD).
    Word,
    /// A run of the bytes of this set, of any length (.CMFLD with a break mask, .CMBRK).
    Run(ByteSet),
    /// A quoted text, of at most 39 bytes (.CMQST).
    Quoted,
    /// A quoted text as long as the line (.CMQST).
    LongQuoted,
    /// This text (.CMTOK).
    Token(Name),
    /// A date (.CMTAD).
    Date,
    /// A user (.CMUSR).
    User,
    /// A directory, where the flag `new` says so one that may not be there yet (.CMDIR).
    Directory,
    /// A file that is read (.CMIFI).
    InFile,
    /// A file that is written (.CMOFI).
    OutFile,
    /// A file of either kind (.CMFIL).
    AnyFile,
    /// The rest of the line (.CMTXT).
    Text,
    /// A comma (.CMCMA).
    Comma,
    /// The end of the line (.CMCFM).
    Confirm,
    /// What the hook of this id accepts.
    Hook(u8),
}

/// What a field is for in the command that a line gives.
#[derive(Clone, Copy, Debug, PartialEq, Eq)]
pub enum Role {
    /// Nothing but the line's own shape.
    None,
    /// It names the command.
    Verb,
    /// It says what the command tells about.
    What,
    /// The files that are read.
    Source,
    /// The file that is written.
    Target,
    /// The files, users or directories that the command works on.
    Files,
    /// Subcommands follow.
    Sub,
    /// A value, or the switch that it belongs to.
    Value,
    /// A role of the program's own, by its number.
    Own(u8),
}
