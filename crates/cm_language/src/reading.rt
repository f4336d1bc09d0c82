// What is read at a position, and where two positions read the same.
ghost use Rattle.std.specs.Prelude.{◌≡◌};
ghost use Rattle.std.specs.Cmp.Lexicographic.{pointwise};
ghost use Rattle.std.specs.Option.{option_copied};
ghost use Rattle.cm_language.specs.Readings.{is_same_found, is_same_kind, is_same_part, is_same_range, is_same_reading, kind_number, part_at, part_number, part_of, range_of, step_of};

use crate::place::Position;
use cm_synopsis::{Command, Kind, Part, Step, Way};
use cm_text::equals;

/// The step that a position is behind. None where it is at the start of a line, and where its command or its step is
/// not there.
pub fn step_of(ways: &[Way], position: Position) -> Option<Step>
    ensures { result ≡ step_of ways.now position }
{
    if position.step == 0 || position.command >= ways.len() {
        return None;
    }
    let way = &ways[position.command];
    way.steps.get(position.step - 1).copied()
}

// The part that a step of a command is.
fn part_at(commands: &[Command], command: usize, step: Option<Step>) -> Option<&Part>
    ensures { option_copied result ≡ part_at commands.now command step }
{
    let step = step?;
    if command >= commands.len() {
        return None;
    }
    let command = &commands[command];
    command.parts.get(step.part)
}

/// The part that a position is behind. None where it is behind none, and where that is not there.
pub fn part_of<'a>(commands: &'a [Command], ways: &[Way], position: Position) -> Option<&'a Part>
    ensures { option_copied result ≡ part_of commands.now ways.now position }
{
    part_at(commands, position.command, step_of(ways, position))
}

// The range of the step that a position is behind.
fn range_of(ways: &[Way], position: Position) -> Option<(u32, u32)>
    ensures { result ≡ range_of ways.now position }
{
    step_of(ways, position)?.range
}

// Whether two ranges are one.
fn is_same_range(one: Option<(u32, u32)>, other: Option<(u32, u32)>) -> bool
    ensures { result ≡ is_same_range one other }
{
    match (one, other) {
        (None, None) => true,
        (Some((low, high)), Some((least, most))) => low == least && high == most,
        _ => false,
    }
}

// The number of a kind.
fn kind_number(kind: Kind) -> usize
    ensures { result ≡ kind_number kind }
{
    match kind {
        Kind::Number => 0,
        Kind::Word => 1,
        Kind::Quoted => 2,
        Kind::Date => 3,
        Kind::Rest => 4,
        Kind::Ipv4 => 5,
        Kind::Ipv4Prefix => 6,
        Kind::Ipv6 => 7,
        Kind::Ipv6Prefix => 8,
        Kind::Mac => 9,
        Kind::Listed(_) => 10,
        Kind::Class(_) => 11,
    }
}

// Whether two kinds are one.
fn is_same_kind(kind: &Kind, other: &Kind) -> bool
    ensures { result ≡ is_same_kind kind.now other.now }
{
    match (kind, other) {
        (Kind::Listed(list), Kind::Listed(other)) => list == other,
        (Kind::Class(set), Kind::Class(other)) => set == other,
        _ => kind_number(*kind) == kind_number(*other),
    }
}

// Whether two lists of kinds are one.
#[tactic(auto, using(crate::proofs::Same::kinds_apart))]
fn is_same_kinds(kinds: &[Kind], others: &[Kind]) -> bool
    ensures { result ≡ pointwise is_same_kind kinds.now others.now }
{
    if kinds.len() != others.len() {
        return false;
    }
    for at in 0..kinds.len() {
        if !is_same_kind(&kinds[at], &others[at]) {
            return false;
        }
    }
    true
}

// The number of a kind of part.
fn part_number(part: &Part) -> usize
    ensures { result ≡ part_number part.now }
{
    match part {
        Part::Keyword(_) => 0,
        Part::Guide(_) => 1,
        Part::Field(_, _) => 2,
        Part::Switch(_) => 3,
        Part::Lead(_) => 4,
        _ => 5,
    }
}

// Whether two parts read the same.
#[tactic(auto, unfolding(cm_text::specs::Case::equals))]
fn is_same_part(one: &Part, other: &Part) -> bool
    ensures { result ≡ is_same_part one.now other.now }
{
    match (one, other) {
        (Part::Keyword(name), Part::Keyword(other)) => equals(name.as_bytes(), other.as_bytes()),
        (Part::Switch(name), Part::Switch(other)) => equals(name.as_bytes(), other.as_bytes()),
        (Part::Lead(name), Part::Lead(other)) => equals(name.as_bytes(), other.as_bytes()),
        (Part::Guide(name), Part::Guide(other)) => name == other,
        (Part::Field(name, kinds), Part::Field(other, more)) => {
            name == other && is_same_kinds(kinds.as_slice(), more.as_slice())
        }
        _ => part_number(one) == part_number(other),
    }
}

// Whether two parts, or none, read the same.
fn is_same_found(one: Option<&Part>, other: Option<&Part>) -> bool
    ensures { result ≡ is_same_found (option_copied one.entry) (option_copied other.entry) }
{
    match (one, other) {
        (None, None) => true,
        (Some(part), Some(other)) => is_same_part(part, other),
        _ => false,
    }
}

// Whether two positions read the same.
#[tactic(auto, unfolding(crate::specs::Readings::is_same_reading))]
pub(crate) fn is_same_reading(
    commands: &[Command],
    ways: &[Way],
    one: Position,
    other: Position,
) -> bool
    ensures { result ≡ is_same_reading commands.now ways.now one other }
{
    is_same_range(range_of(ways, one), range_of(ways, other))
        && is_same_found(part_of(commands, ways, one), part_of(commands, ways, other))
}
