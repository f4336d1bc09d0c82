// Where a line may be, and how it goes on.
ghost use Rattle.std.specs.Prelude.{◌≡◌};
ghost use Rattle.cm_language.specs.Groups.{is_position};

/// The most places that a language has.
pub const PLACE_LIMIT: usize = 1023;

/// Where a line is: behind which step of which command. Step 0 is the start of the line.
#[derive(Clone, Copy, Debug)]
pub struct Position {
    /// The number of the command, from 0.
    pub command: usize,
    /// The number of the step, from 1.
    pub step: usize,
}

/// How a line goes on from a place.
#[derive(Clone, Copy, Debug)]
pub struct Exit {
    /// The first position that it leads to: what is read there says how the line goes on.
    pub position: Position,
    /// The number of the place that it leads to.
    pub place: usize,
}

/// A place of a language: what a line may be behind, under all commands together, and how it goes on.
#[derive(Debug, Drop)]
pub struct Place {
    /// The positions of a line that is there.
    pub positions: Vec<Position>,
    /// What may be read next, each with the place behind it.
    pub exits: Vec<Exit>,
}

/// Why a language has no places.
#[derive(Clone, Copy, Debug, PartialEq, Eq)]
pub enum PlacesError {
    /// There was not enough memory.
    NoMemory,
    /// There are more than 1,023 places.
    TooMany,
}

// Whether two positions are one.
pub(crate) fn is_position(one: Position, other: Position) -> bool
    ensures { result ≡ is_position one other }
{
    one.command == other.command && one.step == other.step
}
