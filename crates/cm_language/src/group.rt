// Groups of positions that read the same.
ghost use Rattle.std.specs.Prelude.{◌≡◌, IfOk, OnOk, List};
ghost use Rattle.std.specs.List.{list_any};
ghost use Rattle.cm_language.specs.Groups.{firsts, group_of, is_group, with_new};
ghost use Rattle.cm_language.specs.Readings.{is_same_reading};

use crate::place::{Position, is_position};
use crate::reading::is_same_reading;
use cm_synopsis::{Command, Way};
use std::alloc::{AllocError, Global};
use std::marker::Model;

/// The positions of a place. Contracts see their list.
#[derive(Debug, Drop)]
pub(crate) struct Group {
    positions: Vec<Position>,
}

impl Model for Group {
    ghost use Rattle.std.specs.Prelude.{List};
    ghost use Rattle.cm_language.specs.declared.place.Position.{Position};

    ghost Value = { List Position };

    ghost view = { λ group. group.positions.items };
}

impl Group {
    // The group of these positions.
    pub(crate) fn of(positions: Vec<Position>) -> Group
        ensures { result ≡ positions.items }
    {
        Group { positions }
    }

    // The positions as a slice.
    pub(crate) fn as_slice(&self) -> &[Position]
        ensures { result.now ≡ self.now }
    {
        &self.positions
    }
}

// Whether two lists have the same positions in the same order.
#[tactic(auto, using(crate::proofs::Same::is_group_apart))]
pub(crate) fn is_group(ones: &[Position], others: &[Position]) -> bool
    ensures { result ≡ is_group ones.now others.now }
{
    if ones.len() != others.len() {
        return false;
    }
    for at in 0..ones.len() {
        if !is_position(ones[at], others[at]) {
            return false;
        }
    }
    true
}

// Whether one of these reads the same.
fn has_reading(commands: &[Command], ways: &[Way], made: &[Position], position: Position) -> bool
    ensures { result ≡ list_any (is_same_reading commands.now ways.now position) made.now }
{
    made.iter()
        .any(|other| is_same_reading(commands, ways, position, *other))
}

// Puts a position at the end, where none there reads the same.
fn add_first(
    commands: &[Command],
    ways: &[Way],
    made: &mut Vec<Position>,
    position: Position,
) -> Result<(), AllocError>
    ensures { OnOk result
        (made.new.items
        ≡ with_new (is_same_reading commands.now ways.now) made.old.items position) }
{
    if has_reading(commands, ways, made, position) {
        return Ok(());
    }
    made.push(position)?;
    Ok(())
}

// The first position of each group of these.
pub(crate) fn firsts(
    alloc: Global,
    commands: &[Command],
    ways: &[Way],
    positions: &[Position],
) -> Result<Vec<Position>, AllocError>
    ensures { IfOk result (λ made. made.items ≡ firsts commands.now ways.now positions.now) }
{
    let mut made = Vec::new(alloc);
    for at in 0..positions.len() {
        add_first(commands, ways, &mut made, positions[at])?;
    }
    Ok(made)
}

// Those of some positions that read the same as one.
pub(crate) fn group_of(
    alloc: Global,
    commands: &[Command],
    ways: &[Way],
    positions: &[Position],
    one: Position,
) -> Result<Vec<Position>, AllocError>
    ensures { IfOk result (λ made. made.items ≡ group_of commands.now ways.now positions.now one) }
{
    let mut made = Vec::new(alloc);
    for at in 0..positions.len() {
        if !is_same_reading(commands, ways, one, positions[at]) {
            continue;
        }
        made.push(positions[at])?;
    }
    Ok(made)
}
