// The places of a language.
ghost use Rattle.std.specs.Prelude.{◌≡◌, ◌<◌, Some, None, Ok, Err, IfOk, IfErr, length, map};
ghost use Rattle.cm_language.specs.Groups.{group_of};
ghost use Rattle.cm_language.specs.Places.{exit_of, exits_of, number_of, places, positions_at, site, site_of, sites_of};
ghost use Rattle.cm_language.specs.declared.place.PlacesError.TheVariants.{TooMany};

use crate::group::{Group, firsts, group_of, is_group};
use crate::known::known_within;
use crate::place::{Exit, PLACE_LIMIT, Place, PlacesError, Position};
use crate::reached::reached;
use cm_synopsis::{Command, Way};
use std::alloc::{AllocError, Global};

// The number of a group among these.
fn number_of(known: &[Group], group: &[Position]) -> usize
    ensures { result ≡ number_of known.now group.now }
{
    known
        .iter()
        .take_while(|other| !is_group(group, other.as_slice()))
        .count()
}

// The exit to the group of one of some positions.
fn exit_of(
    alloc: Global,
    commands: &[Command],
    ways: &[Way],
    known: &[Group],
    positions: &[Position],
    first: Position,
) -> Result<Exit, AllocError>
    ensures { IfOk result
        (λ made. made ≡ exit_of commands.now ways.now known.now positions.now first) }
{
    let group = group_of(alloc, commands, ways, positions, first)?;
    Ok(Exit {
        position: first,
        place: number_of(known, &group),
    })
}

// The exits to the groups of these firsts.
fn exits_to(
    alloc: Global,
    commands: &[Command],
    ways: &[Way],
    known: &[Group],
    positions: &[Position],
    firsts: &[Position],
) -> Result<Vec<Exit>, AllocError>
    ensures { IfOk result (λ made. made.items
        ≡ map (exit_of commands.now ways.now known.now positions.now) firsts.now) }
{
    let mut made = Vec::new(alloc);
    for at in 0..firsts.len() {
        let exit = exit_of(alloc, commands, ways, known, positions, firsts[at])?;
        made.push(exit)?;
    }
    Ok(made)
}

// The exits to the groups of these positions.
fn exits_of(
    alloc: Global,
    commands: &[Command],
    ways: &[Way],
    known: &[Group],
    positions: &[Position],
) -> Result<Vec<Exit>, AllocError>
    ensures { IfOk result
        (λ made. made.items ≡ exits_of commands.now ways.now known.now positions.now) }
{
    let firsts = firsts(alloc, commands, ways, positions)?;
    exits_to(alloc, commands, ways, known, positions, &firsts)
}

// The place with these positions.
fn place_of(
    alloc: Global,
    commands: &[Command],
    ways: &[Way],
    known: &[Group],
    positions: &[Position],
) -> Result<Place, AllocError>
    ensures { IfOk result
        (λ made. site_of made ≡ site commands.now ways.now known.now positions.now) }
{
    let reached = reached(alloc, ways, positions)?;
    let exits = exits_of(alloc, commands, ways, known, &reached)?;
    Ok(Place {
        positions: Vec::from_slice(alloc, positions)?,
        exits,
    })
}

// The places of all that is known.
fn all_places(
    alloc: Global,
    commands: &[Command],
    ways: &[Way],
    known: &[Group],
) -> Result<Vec<Place>, AllocError>
    ensures { IfOk result
        (λ made. map site_of made.items ≡ map (site commands.now ways.now known.now) known.now) }
{
    let mut made = Vec::new(alloc);
    for at in 0..known.len() {
        let place = place_of(alloc, commands, ways, known, known[at].as_slice())?;
        made.push(place)?;
    }
    Ok(made)
}

/// The places of a language with these commands, each with its way at the same number: where a line may be under all of
/// them together, and how it goes on from there. Place 0 is the start of each command. Commands that begin alike are
/// read as one until they part. Behind a command or a step that is not there a line does not go on. TooMany where there
/// would be more than 1,023 places.
#[tactic(auto, unfolding(crate::specs::Places::places))]
pub fn places_of(
    alloc: Global,
    commands: &[Command],
    ways: &[Way],
) -> Result<Vec<Place>, PlacesError>
    ensures made { IfOk result
        (λ made. places commands.now ways.now ≡ Some (map site_of made.items)) }
    ensures many { IfErr result
        (λ fault. fault ≡ TooMany → places commands.now ways.now ≡ None) }
{
    let known = match known_within(alloc, PLACE_LIMIT, commands, ways) {
        Ok(known) => known,
        Err(_) => return Err(PlacesError::NoMemory),
    };
    if known.len() > PLACE_LIMIT {
        return Err(PlacesError::TooMany);
    }
    match all_places(alloc, commands, ways, &known) {
        Ok(made) => Ok(made),
        Err(_) => Err(PlacesError::NoMemory),
    }
}
