// Why a language has no grammar.
ghost use Rattle.std.specs.Prelude.{◌≡◌};
ghost use Rattle.cm_graph.specs.Texts.{reason_text};

/// Why a language has no grammar.
#[derive(Clone, Copy, Debug, PartialEq, Eq)]
pub enum GraphReason {
    /// At one place a line could be read as two commands' fields, or as a guide word and something else.
    Clash,
    /// Two commands are the same line.
    SameLine,
    /// A command may be an empty line.
    EmptyLine,
    /// A keyword or a switch has a byte that is no letter, digit or hyphen.
    BadKeyword,
    /// The help of a command has more than 39 bytes, or one that is not shown as it is.
    BadHelp,
    /// More than 1,024 keywords may stand at one place.
    ManyKeywords,
    /// There are more tables of keywords than a grammar has, or more places.
    ManyTables,
    /// A place has more ways to go on than a node has blocks.
    LongChain,
    /// The places are none of a language.
    NotDrawn,
}

impl GraphReason {
    /// What is told to people: a text with no point at its end.
    #[tactic(auto, unfolding(crate::specs::Texts::reason_text))]
    pub fn text(self) -> &'static str
        ensures { result.now ≡ reason_text self }
    {
        match self {
            GraphReason::Clash => "Cannot be told from a command before",
            GraphReason::SameLine => "The same line as a command before",
            GraphReason::EmptyLine => "A command that may be an empty line",
            GraphReason::BadKeyword => "A keyword with more than letters, digits and hyphens",
            GraphReason::BadHelp => "A help of more than 39 bytes, or with a ?",
            GraphReason::ManyKeywords => "More than 1024 keywords at one place",
            GraphReason::ManyTables => "Too many places with keywords",
            GraphReason::LongChain => "Too many fields at one place",
            GraphReason::NotDrawn => "No places of a language",
        }
    }
}

/// Where a language has no grammar, and why.
#[derive(Clone, Copy, Debug, PartialEq, Eq)]
pub struct GraphFault {
    /// The number of the command at fault, from 0.
    pub command: usize,
    /// The number of the command that it meets; its own where it meets none.
    pub other: usize,
    /// Why it is at fault.
    pub reason: GraphReason,
}
