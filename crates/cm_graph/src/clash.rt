// What makes a place one where a line cannot be read.
ghost use Rattle.std.specs.Prelude.{◌≡◌, ◌==◌, None};
ghost use Rattle.std.specs.List.{list_all, list_any};
ghost use Rattle.std.specs.Option.{option_copied};
ghost use Rattle.cm_tables.specs.Order.{is_keyword as is_keyword_text, is_keyword_byte};
ghost use Rattle.cm_language.specs.Places.{site_of};
ghost use Rattle.cm_graph.specs.Clashes.{bad_name, claim_after, claim_clash, claims_with, empty_line, end_after, end_clash, ends_with, first_command, first_end, is_bad_name, is_claim, is_end, or_fault, place_fault};

use crate::exit::{is_field, is_guide, is_keyword, is_switch, name_of};
use crate::fault::{GraphFault, GraphReason};
use cm_language::{Exit, Place, Position, part_of};
use cm_synopsis::{Command, Part, Way};

// What is read by neither its name nor a slash: a guide word or a field, of this command.
#[derive(Clone, Copy, Debug)]
pub(crate) struct Claim {
    pub(crate) guide: bool,
    pub(crate) command: usize,
}

// Whether a step is one of these.
fn has_step(ends: &[usize], step: usize) -> bool
    ensures { result ≡ list_any (λ end. end == step) ends.now }
{
    ends.iter().any(|end| *end == step)
}

// Whether a line may end behind a position.
fn is_end(ways: &[Way], position: Position) -> bool
    ensures { result ≡ is_end ways.now position }
{
    if position.command >= ways.len() {
        return false;
    }
    let way = &ways[position.command];
    has_step(&way.ends, position.step)
}

// Whether a line may end at a place with these positions.
pub(crate) fn may_end(ways: &[Way], positions: &[Position]) -> bool
    ensures { result ≡ list_any (is_end ways.now) positions.now }
{
    positions.iter().any(|position| is_end(ways, *position))
}

// An end of another command than one before.
fn ends_with(found: Option<usize>, at: Position) -> Option<GraphFault>
    ensures { result ≡ ends_with found at }
{
    match found {
        Some(command) if command != at.command => Some(GraphFault {
            command: at.command,
            other: command,
            reason: GraphReason::SameLine,
        }),
        _ => None,
    }
}

// The first end of a command other than that of the first end.
fn end_clash(ways: &[Way], positions: &[Position]) -> Option<GraphFault>
    ensures { result ≡ end_clash ways.now None positions.now }
{
    let mut found = None;
    for at in positions {
        if !is_end(ways, *at) {
            continue;
        }
        let fault = ends_with(found, *at);
        if fault.is_some() {
            return fault;
        }
        found = Some(found.unwrap_or(at.command));
    }
    None
}

// Whether what is read is told by neither its name nor a slash.
fn is_claim(part: Option<&Part>) -> bool
    ensures { result ≡ is_claim (option_copied part.entry) }
{
    is_field(part) || is_guide(part)
}

// Whether that meets what was before.
fn claims_with(found: Option<Claim>, guide: bool, command: usize) -> Option<GraphFault>
    ensures { result ≡ claims_with found guide command }
{
    let claim = found?;
    if !claim.guide && !guide && claim.command == command {
        return None;
    }
    Some(GraphFault {
        command,
        other: claim.command,
        reason: GraphReason::Clash,
    })
}

// The first exit that meets one before.
fn claim_clash(commands: &[Command], ways: &[Way], exits: &[Exit]) -> Option<GraphFault>
    ensures { result ≡ claim_clash commands.now ways.now None exits.now }
{
    let mut found = None;
    for exit in exits {
        let part = part_of(commands, ways, exit.position);
        if !is_claim(part) {
            continue;
        }
        let command = exit.position.command;
        let fault = claims_with(found, is_guide(part), command);
        if fault.is_some() {
            return fault;
        }
        found = Some(found.unwrap_or(Claim {
            guide: is_guide(part),
            command,
        }));
    }
    None
}

// Whether no table takes a keyword or a switch.
fn is_bad_name(part: Option<&Part>) -> bool
    ensures { result ≡ is_bad_name (option_copied part.entry) }
{
    (is_keyword(part) || is_switch(part)) && !is_keyword_text(name_of(part).as_bytes())
}

// Whether a text is one of letters, digits and hyphens.
fn is_keyword_text(text: &[u8]) -> bool
    ensures { result ≡ is_keyword_text text.now }
{
    !text.is_empty() && are_keyword_bytes(text)
}

fn are_keyword_bytes(text: &[u8]) -> bool
    ensures { result ≡ list_all is_keyword_byte text.now }
{
    text.iter()
        .all(|byte| byte.is_ascii_alphanumeric() || *byte == b'-')
}

// The first keyword or switch that no table takes.
fn bad_name(commands: &[Command], ways: &[Way], exits: &[Exit]) -> Option<GraphFault>
    ensures { result ≡ bad_name commands.now ways.now exits.now }
{
    for exit in exits {
        if is_bad_name(part_of(commands, ways, exit.position)) {
            return Some(GraphFault {
                command: exit.position.command,
                other: exit.position.command,
                reason: GraphReason::BadKeyword,
            });
        }
    }
    None
}

// The first command of a place.
pub(crate) fn first_command(positions: &[Position]) -> usize
    ensures { result ≡ first_command positions.now }
{
    match positions.first() {
        Some(at) => at.command,
        None => 0,
    }
}

// The first command that ends there is an empty line.
fn first_end(ways: &[Way], positions: &[Position]) -> Option<GraphFault>
    ensures { result ≡ first_end ways.now positions.now }
{
    for at in positions {
        if is_end(ways, *at) {
            return Some(GraphFault {
                command: at.command,
                other: at.command,
                reason: GraphReason::EmptyLine,
            });
        }
    }
    None
}

// A command that is an empty line.
fn empty_line(ways: &[Way], number: usize, positions: &[Position]) -> Option<GraphFault>
    ensures { result ≡ empty_line ways.now number positions.now }
{
    if number == 0 {
        first_end(ways, positions)
    } else {
        None
    }
}

// The first fault of a place with a number.
pub(crate) fn place_fault(
    commands: &[Command],
    ways: &[Way],
    number: usize,
    place: &Place,
) -> Option<GraphFault>
    ensures { result ≡ place_fault commands.now ways.now number (site_of place.now) }
{
    let fault = empty_line(ways, number, &place.positions);
    if fault.is_some() {
        return fault;
    }
    let fault = end_clash(ways, &place.positions);
    if fault.is_some() {
        return fault;
    }
    let fault = claim_clash(commands, ways, &place.exits);
    if fault.is_some() {
        return fault;
    }
    bad_name(commands, ways, &place.exits)
}
