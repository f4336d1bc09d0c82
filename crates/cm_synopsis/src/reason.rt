// Why a line is refused.
ghost use Rattle.std.specs.Prelude.{◌≡◌};
ghost use Rattle.cm_synopsis.specs.Reasons.{reason_text};

/// Why a line of a language is refused.
#[derive(Clone, Copy, Debug, PartialEq, Eq)]
pub enum Reason {
    /// A byte is neither a blank nor one of 33 to 126.
    BadByte,
    /// A name is missing.
    NoName,
    /// A word has a byte that no name has.
    BadWord,
    /// A name has more than 39 bytes.
    LongWord,
    /// No `)` ends a guide word.
    OpenGuide,
    /// A field has a kind that is none, nor a list above.
    UnknownKind,
    /// A class of bytes has no end, no byte, or a range that falls.
    BadClass,
    /// A field has more than 8 kinds.
    ManyKinds,
    /// A range is none, falls, or goes beyond 4294967295.
    BadRange,
    /// A switch with a colon has no field behind it, or `..` stands behind none.
    NoField,
    /// A bracket closes that is not open.
    NotOpen,
    /// A bar stands directly in no `< >` and no `{ }`.
    NoBar,
    /// A bracket or one of its alternatives has no part.
    EmptyBracket,
    /// An alternative in `{ }` begins with no keyword and no switch.
    NotOption,
    /// A part stands behind a field that takes the rest of the line.
    NotLast,
    /// A bracket has no end.
    NotClosed,
    /// More than 16 brackets are open at once.
    DeepBracket,
    /// A command has no part.
    NoPart,
    /// A help has no text.
    NoHelp,
    /// A prompt stands above.
    SecondPrompt,
    /// A list above has the name, or a kind of field.
    SameList,
    /// A name stands twice in a list.
    SameName,
    /// More than 200 lists.
    ManyLists,
    /// More than 16 keywords before a help.
    ManyWords,
    /// A text of more than 1,048,576 bytes.
    LongText,
    /// A text has no command.
    NoCommand,
}

impl Reason {
    /// What is told to people: a text with no point at its end.
    #[tactic(auto, unfolding(crate::specs::Reasons::reason_text))]
    pub fn text(self) -> &'static str
        ensures { result.now ≡ reason_text self }
    {
        match self {
            Reason::BadByte => "A byte that does not print",
            Reason::NoName => "A name is missing",
            Reason::BadWord => "A byte that no name has",
            Reason::LongWord => "A name of more than 39 bytes",
            Reason::OpenGuide => "A guide word without its end",
            Reason::UnknownKind => "No kind, and no list above",
            Reason::BadClass => "No class of bytes",
            Reason::ManyKinds => "More than 8 kinds",
            Reason::BadRange => "No range of numbers",
            Reason::NoField => "No field where one must be",
            Reason::NotOpen => "An end of a bracket that is not open",
            Reason::NoBar => "A bar in no choice",
            Reason::EmptyBracket => "Nothing in a bracket",
            Reason::NotOption => "No keyword and no switch in front",
            Reason::NotLast => "A part behind the rest of the line",
            Reason::NotClosed => "A bracket without its end",
            Reason::DeepBracket => "More than 16 brackets in one another",
            Reason::NoPart => "A command without a part",
            Reason::NoHelp => "A help without a text",
            Reason::SecondPrompt => "A second prompt",
            Reason::SameList => "A list above, or a kind, has this name",
            Reason::SameName => "A name that the list has already",
            Reason::ManyLists => "More than 200 lists",
            Reason::ManyWords => "More than 16 keywords before a help",
            Reason::LongText => "A text of more than 1048576 bytes",
            Reason::NoCommand => "A text without a command",
        }
    }
}
