// Why a field, a line or a command is refused.
ghost use Rattle.std.specs.Prelude.{◌≡◌, nat_le, true};
ghost use Rattle.cm_fields.specs.Code.{code_number, code_text, is_own};
ghost use Rattle.cm_fields.specs.Reason.{is_reason_text};

use crate::{OWN_NUMBER, Outside, Reason};

/// Why a field, a line or a command is refused.
///
/// Those up to Repeated are the library's: of its field functions, of its parser, and Rejected of a hook that gives no
/// reason. Those from NoMatch on are of the programs of this repository, the EXEC and mail, and of their store. A
/// program outside has its reasons as `Own`, by numbers and texts that it chooses.
#[derive(Clone, Copy, Debug, PartialEq, Eq)]
pub enum Code {
    /// There is no word where a keyword is due, or the table has none that it abbreviates.
    NotKeyword,
    /// The word abbreviates more than one keyword.
    Ambiguous,
    /// There is no `/` where a switch is due.
    NotSwitch,
    /// A switch that takes a value has no colon after it.
    NeedColon,
    /// What is in parentheses is no beginning of the guide word, or they are not closed.
    BadNoise,
    /// There is no word where a number is due, or one that is not digits alone.
    BadNumber,
    /// The number is above 34,359,738,367.
    NumberRange,
    /// There is no word where one is due.
    NoField,
    /// The word or the quoted text has more than 39 bytes.
    FieldLong,
    /// There is no `"` where a quoted text is due.
    NotQuoted,
    /// The line ends in a quoted text.
    NoQuote,
    /// Another text is where a fixed one is due.
    NotToken,
    /// The word is no date, or its month has no such day.
    BadDate,
    /// The year is not one of 1970 to 2099.
    YearRange,
    /// The text is no file specification, or lacks the name that is due.
    SpecShape,
    /// A part of a file specification has more than 39 bytes.
    NameLong,
    /// The generation is no generation, or none that may be here.
    GenRange,
    /// A wildcard is where none may.
    WildHere,
    /// The device holds no files.
    Device,
    /// The device is no device and no logical name.
    NoLogical,
    /// There is no such directory.
    NoDirectory,
    /// There is no such user.
    NoUser,
    /// No file is selected.
    NoFile,
    /// There is no comma where one is due.
    NotComma,
    /// More is where the line is to end.
    NotConfirmed,
    /// A function of the program's own has refused the value, and gives no reason.
    Rejected,
    /// The line has more than 64 fields.
    TooMany,
    /// The number is none of those that may be here, whose range the text tells.
    OutOfRange(Outside),
    /// The line has this keyword or switch already, and may have it once.
    Repeated,
    /// A listing selects no file.
    NoMatch,
    /// The highest generation is taken.
    GenFull,
    /// A file of that generation is there already.
    FileExists,
    /// A file that is written wants a name.
    NameNeeded,
    /// The number of copies is not one of 1 to 63.
    CopyRange,
    /// There are as many directories as there may be.
    DirLimit,
    /// There are as many files as there may be.
    FileLimit,
    /// A file would pass its limit.
    FileSize,
    /// All files together would pass their limit.
    StoreSize,
    /// There are as many logical names as there may be.
    LogicalLimit,
    /// There are as many print requests as there may be.
    QueueLimit,
    /// There is no such logical name to take away.
    NoDefinition,
    /// A command file is taken inside too many others.
    TakeDepth,
    /// Command files have as many lines as one typed line may run.
    LineLimit,
    /// A line of a command file is no line.
    BadLine,
    /// The command takes what is typed, which a command file has not.
    NotInTake,
    /// A control file goes to a label that it does not have.
    NoLabel,
    /// A line of a control file is none.
    BadControl,
    /// A command would wait for subcommands where there are none.
    NoSubcommands,
    /// There is no such message in a mailbox.
    NoMessage,
    /// A mailbox has as many messages as it may have.
    MailFull,
    /// A reason of an application's own.
    Own(Reason),
}

impl Code {
    /// The text that a refused line shows.
    #[tactic(auto, unfolding(crate::specs::Code::code_text, crate::specs::Reason::is_reason_text))]
    pub fn text(&self) -> &str
        ensures value { result.now ≡ code_text self.now }
        // It is not empty, has at most 39 bytes, and each of them prints.
        ensures shown { is_reason_text result.now ≡ true }
    {
        match self {
            Code::NotKeyword => "Unrecognized keyword",
            Code::Ambiguous => "Ambiguous keyword",
            Code::NotSwitch => "Not a switch",
            Code::NeedColon => "Switch needs a value",
            Code::BadNoise => "Guide word does not match",
            Code::BadNumber => "Invalid number",
            Code::NumberRange => "Number too large",
            Code::NoField => "Field is missing",
            Code::FieldLong => "Field too long",
            Code::NotQuoted => "Quoted string expected",
            Code::NoQuote => "Closing quote is missing",
            Code::NotToken => "Token does not match",
            Code::BadDate => "Invalid date",
            Code::YearRange => "Year not in 1970 to 2099",
            Code::SpecShape => "Invalid file specification",
            Code::NameLong => "Name too long",
            Code::GenRange => "Invalid generation",
            Code::WildHere => "Wildcard not allowed",
            Code::Device => "Device not allowed",
            Code::NoLogical => "No such logical name",
            Code::NoDirectory => "No such directory",
            Code::NoUser => "No such user",
            Code::NoFile => "No such file",
            Code::NotComma => "Comma expected",
            Code::NotConfirmed => "Not confirmed",
            Code::Rejected => "Value not accepted",
            Code::TooMany => "Too many fields",
            Code::OutOfRange(outside) => outside.text(),
            Code::Repeated => "Already given",
            Code::NoMatch => "No files match",
            Code::GenFull => "No higher generation",
            Code::FileExists => "File already exists",
            Code::NameNeeded => "File name is needed",
            Code::CopyRange => "Copies must be 1 to 63",
            Code::DirLimit => "Too many directories",
            Code::FileLimit => "Too many files",
            Code::FileSize => "File too large",
            Code::StoreSize => "No room for files",
            Code::LogicalLimit => "Too many logical names",
            Code::QueueLimit => "Print queue is full",
            Code::NoDefinition => "Logical name is not defined",
            Code::TakeDepth => "TAKE too deep",
            Code::LineLimit => "Too many lines",
            Code::BadLine => "Invalid line in command file",
            Code::NotInTake => "Not allowed in a command file",
            Code::NoLabel => "No such label",
            Code::BadControl => "Invalid line in control file",
            Code::NoSubcommands => "Subcommands not allowed here",
            Code::NoMessage => "No such message",
            Code::MailFull => "Mailbox is full",
            Code::Own(reason) => reason.text(),
        }
    }

    /// The number that the log gives.
    #[tactic(auto, unfolding(crate::specs::Code::code_number))]
    pub fn number(self) -> u8
        ensures value { result ≡ code_number self }
        // An application's own is at least 128, and none of the others is.
        ensures own { is_own self ≡ nat_le OWN_NUMBER result }
    {
        match self {
            Code::NotKeyword => 1,
            Code::Ambiguous => 2,
            Code::NotSwitch => 3,
            Code::NeedColon => 4,
            Code::BadNoise => 5,
            Code::BadNumber => 6,
            Code::NumberRange => 7,
            Code::NoField => 8,
            Code::FieldLong => 9,
            Code::NotQuoted => 10,
            Code::NoQuote => 11,
            Code::NotToken => 12,
            Code::BadDate => 13,
            Code::YearRange => 14,
            Code::SpecShape => 15,
            Code::NameLong => 16,
            Code::GenRange => 17,
            Code::WildHere => 18,
            Code::Device => 19,
            Code::NoLogical => 20,
            Code::NoDirectory => 21,
            Code::NoUser => 22,
            Code::NoFile => 23,
            Code::NotComma => 24,
            Code::NotConfirmed => 25,
            Code::Rejected => 26,
            Code::TooMany => 27,
            Code::OutOfRange(_) => 28,
            Code::Repeated => 29,
            Code::NoMatch => 30,
            Code::GenFull => 31,
            Code::FileExists => 32,
            Code::NameNeeded => 33,
            Code::CopyRange => 34,
            Code::DirLimit => 35,
            Code::FileLimit => 36,
            Code::FileSize => 37,
            Code::StoreSize => 38,
            Code::LogicalLimit => 39,
            Code::QueueLimit => 40,
            Code::NoDefinition => 41,
            Code::TakeDepth => 43,
            Code::LineLimit => 44,
            Code::BadLine => 45,
            Code::NotInTake => 46,
            Code::NoLabel => 47,
            Code::BadControl => 48,
            Code::NoSubcommands => 49,
            Code::NoMessage => 50,
            Code::MailFull => 51,
            Code::Own(reason) => reason.number(),
        }
    }
}
