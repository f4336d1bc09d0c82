// The positions that may come behind others.
ghost use Rattle.std.specs.Prelude.{◌≡◌, IfOk, OnOk, fold};
ghost use Rattle.std.specs.List.{list_any};
ghost use Rattle.cm_language.specs.Groups.{is_position, links_of, positions_behind, reached, with_new};

use crate::place::{Position, is_position};
use cm_synopsis::{Link, Way};
use std::alloc::{AllocError, Global};

// The links of a command.
fn links_of(ways: &[Way], command: usize) -> &[Link]
    ensures { result.now ≡ links_of ways.now command }
{
    if command >= ways.len() {
        return &[];
    }
    let way = &ways[command];
    &way.links
}

// Whether a position is one of these.
fn has_position(made: &[Position], position: Position) -> bool
    ensures { result ≡ list_any (is_position position) made.now }
{
    made.iter().any(|other| is_position(position, *other))
}

// Puts a position at the end, where it is not there.
fn add_new(made: &mut Vec<Position>, position: Position) -> Result<(), AllocError>
    ensures { OnOk result (made.new.items ≡ with_new is_position made.old.items position) }
{
    if has_position(made, position) {
        return Ok(());
    }
    made.push(position)?;
    Ok(())
}

// Puts the positions at the end that links lead to from one.
fn add_behind(
    made: &mut Vec<Position>,
    links: &[Link],
    position: Position,
) -> Result<(), AllocError>
    ensures { OnOk result
        (made.new.items
        ≡ fold (with_new is_position) made.old.items (positions_behind position links.now)) }
{
    for at in 0..links.len() {
        if links[at].from != position.step {
            continue;
        }
        let next = Position {
            command: position.command,
            step: links[at].to,
        };
        add_new(made, next)?;
    }
    Ok(())
}

// The positions that may come behind these, each once.
pub(crate) fn reached(
    alloc: Global,
    ways: &[Way],
    positions: &[Position],
) -> Result<Vec<Position>, AllocError>
    ensures { IfOk result (λ made. made.items ≡ reached ways.now positions.now) }
{
    let mut made = Vec::new(alloc);
    for at in 0..positions.len() {
        let position = positions[at];
        add_behind(&mut made, links_of(ways, position.command), position)?;
    }
    Ok(made)
}
