// The positions of places that are known, each place once.
ghost use Rattle.std.specs.Prelude.{◌≡◌, [], ◌++◌, ◌∷◌, IfOk, OnOk, fold, map};
ghost use Rattle.std.specs.List.{list_any};
ghost use Rattle.cm_language.specs.Groups.{group_of, groups, is_group, reached, with_new};
ghost use Rattle.cm_language.specs.Places.{known_within, positions_at, starts, with_groups};

use crate::group::{Group, firsts, group_of, is_group};
use crate::place::Position;
use crate::reached::reached;
use cm_synopsis::{Command, Way};
use std::alloc::{AllocError, Global};

// Whether a group is one of these.
fn has_group(known: &[Group], group: &[Position]) -> bool
    ensures { result ≡ list_any (is_group group.now) known.now }
{
    known.iter().any(|other| is_group(group, other.as_slice()))
}

// Puts a group at the end, where it is not there.
fn add_new(known: &mut Vec<Group>, group: Vec<Position>) -> Result<(), AllocError>
    ensures { OnOk result (known.new.items ≡ with_new is_group known.old.items group.items) }
{
    if has_group(known, &group) {
        return Ok(());
    }
    known.push(Group::of(group))?;
    Ok(())
}

// Puts the groups of some positions at the end that are not there, of these firsts.
fn add_each(
    alloc: Global,
    commands: &[Command],
    ways: &[Way],
    known: &mut Vec<Group>,
    positions: &[Position],
    firsts: &[Position],
) -> Result<(), AllocError>
    ensures { OnOk result
        (known.new.items
        ≡ fold (with_new is_group) known.old.items
        (map (group_of commands.now ways.now positions.now) firsts.now)) }
{
    for at in 0..firsts.len() {
        let group = group_of(alloc, commands, ways, positions, firsts[at])?;
        add_new(known, group)?;
    }
    Ok(())
}

// Puts the groups at the end that are not there and come behind some positions.
fn add_groups(
    alloc: Global,
    commands: &[Command],
    ways: &[Way],
    known: &mut Vec<Group>,
    reached: &[Position],
) -> Result<(), AllocError>
    ensures { OnOk result
        (known.new.items
        ≡ fold (with_new is_group) known.old.items (groups commands.now ways.now reached.now)) }
{
    let firsts = firsts(alloc, commands, ways, reached)?;
    add_each(alloc, commands, ways, known, reached, &firsts)
}

// What comes behind the positions of a place: nothing behind the last.
fn reached_at(
    alloc: Global,
    ways: &[Way],
    known: &[Group],
    at: usize,
) -> Result<Vec<Position>, AllocError>
    ensures { IfOk result (λ made. made.items ≡ reached ways.now (positions_at known.now at)) }
{
    if at >= known.len() {
        return reached(alloc, ways, &[]);
    }
    reached(alloc, ways, known[at].as_slice())
}

// Puts the groups at the end that are not there and come behind a place.
fn follow(
    alloc: Global,
    commands: &[Command],
    ways: &[Way],
    known: &mut Vec<Group>,
    at: usize,
) -> Result<(), AllocError>
    ensures { OnOk result
        (known.new.items
        ≡ with_groups commands.now ways.now known.old.items (positions_at known.old.items at)) }
{
    let reached = reached_at(alloc, ways, known, at)?;
    add_groups(alloc, commands, ways, known, &reached)
}

// The starts of so many commands.
#[tactic(auto, using(crate::proofs::Counts::starts_more))]
fn starts(alloc: Global, commands: &[Command]) -> Result<Vec<Position>, AllocError>
    ensures { IfOk result (λ made. made.items ≡ starts commands.now) }
{
    let mut made = Vec::new(alloc);
    for command in 0..commands.len() {
        made.push(Position { command, step: 0 })?;
    }
    Ok(made)
}

// What is known of a language with at most so many places.
#[tactic(auto, using(crate::proofs::Counts::known_step, crate::proofs::Counts::known_done))]
pub(crate) fn known_within(
    alloc: Global,
    limit: usize,
    commands: &[Command],
    ways: &[Way],
) -> Result<Vec<Group>, AllocError>
    ensures { IfOk result (λ made. made.items ≡ known_within limit commands.now ways.now) }
{
    let mut known = Vec::new(alloc);
    known.push(Group::of(starts(alloc, commands)?))?;
    for at in 0..limit {
        follow(alloc, commands, ways, &mut known, at)?;
    }
    Ok(known)
}
