// The blocks of a place.
ghost use Rattle.std.specs.Prelude.{◌≡◌, ◌++◌, [], IfOk, flat_map};
ghost use Rattle.std.specs.Option.{option_copied};
ghost use Rattle.cm_language.specs.Places.{site_of};
ghost use Rattle.cm_language.specs.Readings.{range_of};
ghost use Rattle.cm_graph.specs.Tables.{node_of};
ghost use Rattle.cm_graph.specs.Graphs.{blocks_of, chain_of, ends_of, entries_from, entry_at, exit_help, field_blocks, field_name, first_field, guide_blocks, guides_of, is_sort, step_help, table_block, with_entries, with_keywords, with_sort, with_switches};

use crate::clash::{first_command, may_end};
use crate::exit::{has_colon, is_keyword, is_option, is_switch, name_of};
use crate::fault::{GraphFault, GraphReason};
use crate::field::push_fields;
use crate::help::help_at;
use crate::table::{entry_of, insert, node_of, number_of};
use cm_blocks::{Block, Function, Role};
use cm_language::{Exit, Place, part_of, step_of};
use cm_synopsis::{Command, Part, Step, Way};
use cm_tables::{Entry, Table};
use cm_text::Name;
use std::alloc::{AllocError, Global};
use std::marker::Model;

// The tables so far, and the blocks of a place.
#[derive(Debug, Drop)]
pub(crate) struct Chain {
    pub(crate) tables: Vec<Table>,
    pub(crate) blocks: Vec<Block>,
}

impl Model for Chain {
    ghost use Rattle.cm_graph.specs.Graphs.{Chain};

    ghost Value = { Chain };

    ghost view = { λ it. record { tables = it.tables.items; blocks = it.blocks.items } };
}

// What exits are asked for: of the switches or the keywords those that a line has once, or the others.
#[derive(Clone, Copy)]
struct Sort {
    switch: bool,
    once: bool,
}

// Whether an exit is of a sort.
fn is_sort(sort: Sort, commands: &[Command], ways: &[Way], exit: Exit) -> bool
    ensures { result ≡ is_sort sort.switch sort.once commands.now ways.now exit }
{
    let part = part_of(commands, ways, exit.position);
    let read = if sort.switch {
        is_switch(part)
    } else {
        is_keyword(part)
    };
    read && sort.once == is_option(ways, exit)
}

// The help of a step of a command.
fn step_help(command: Option<&Command>, step: Option<Step>) -> Option<Name>
    ensures { result ≡ step_help (option_copied command.entry) step }
{
    match (command, step) {
        (Some(command), Some(step)) => help_at(command, step.part),
        _ => None,
    }
}

// The help of what is read at an exit.
fn exit_help(commands: &[Command], ways: &[Way], exit: Exit) -> Option<Name>
    ensures { result ≡ exit_help commands.now ways.now exit }
{
    let step = step_of(ways, exit.position);
    step_help(commands.get(exit.position.command), step)
}

// The entry of an exit.
fn entry_at(commands: &[Command], ways: &[Way], exit: Exit) -> Entry
    ensures { result ≡ entry_at commands.now ways.now exit }
{
    let part = part_of(commands, ways, exit.position);
    let help = exit_help(commands, ways, exit);
    entry_of(name_of(part), has_colon(part), help, exit.place)
}

// The entries of a sort.
fn entries_of(
    alloc: Global,
    sort: Sort,
    commands: &[Command],
    ways: &[Way],
    exits: &[Exit],
) -> Result<Vec<Entry>, AllocError>
    ensures { IfOk result (λ made. made.items
        ≡ entries_from sort.switch sort.once commands.now ways.now [] exits.now) }
{
    let mut made = Vec::new(alloc);
    for exit in exits {
        if is_sort(sort, commands, ways, *exit) {
            insert(&mut made, entry_at(commands, ways, *exit))?;
        }
    }
    Ok(made)
}

// A block that reads an entry of a table.
fn table_block(sort: Sort, number: usize) -> Block
    ensures { result ≡ table_block sort.switch sort.once (node_of number) }
{
    let function = if sort.switch {
        Function::Switch(node_of(number))
    } else {
        Function::Key(node_of(number))
    };
    Block {
        once: sort.once,
        ..Block::new(function, Role::None, 0)
    }
}

// A chain with a block for these entries: their table is the one that is there, or a new one.
fn with_entries(
    command: usize,
    sort: Sort,
    entries: Vec<Entry>,
    mut chain: Chain,
) -> Result<Result<Chain, GraphFault>, AllocError>
    ensures { IfOk result (λ made. made ≡ with_entries command sort.switch sort.once entries.items chain) }
{
    if entries.is_empty() {
        return Ok(Ok(chain));
    }
    let number = number_of(&chain.tables, &entries);
    if number >= chain.tables.len() {
        match Table::new(entries) {
            Ok(table) => chain.tables.push(table)?,
            Err(_) => {
                return Ok(Err(GraphFault {
                    command,
                    other: command,
                    reason: GraphReason::ManyKeywords,
                }));
            }
        }
    }
    chain.blocks.push(table_block(sort, number))?;
    Ok(Ok(chain))
}

// A chain with the exits of a sort.
fn with_sort(
    alloc: Global,
    sort: Sort,
    commands: &[Command],
    ways: &[Way],
    place: &Place,
    chain: Chain,
) -> Result<Result<Chain, GraphFault>, AllocError>
    ensures { IfOk result (λ made. made
        ≡ with_sort sort.switch sort.once commands.now ways.now (site_of place.now) chain) }
{
    let entries = entries_of(alloc, sort, commands, ways, &place.exits)?;
    with_entries(first_command(&place.positions), sort, entries, chain)
}

// A chain with the switches of a place.
fn with_switches(
    alloc: Global,
    commands: &[Command],
    ways: &[Way],
    place: &Place,
    chain: Chain,
) -> Result<Result<Chain, GraphFault>, AllocError>
    ensures { IfOk result (λ made. made ≡ with_switches commands.now ways.now (site_of place.now) chain) }
{
    let once = Sort {
        switch: true,
        once: true,
    };
    match with_sort(alloc, once, commands, ways, place, chain)? {
        Ok(chain) => {
            let others = Sort {
                switch: true,
                once: false,
            };
            with_sort(alloc, others, commands, ways, place, chain)
        }
        Err(fault) => Ok(Err(fault)),
    }
}

// A chain with the keywords of a place.
fn with_keywords(
    alloc: Global,
    commands: &[Command],
    ways: &[Way],
    place: &Place,
    chain: Chain,
) -> Result<Result<Chain, GraphFault>, AllocError>
    ensures { IfOk result (λ made. made ≡ with_keywords commands.now ways.now (site_of place.now) chain) }
{
    let once = Sort {
        switch: false,
        once: true,
    };
    match with_sort(alloc, once, commands, ways, place, chain)? {
        Ok(chain) => {
            let others = Sort {
                switch: false,
                once: false,
            };
            with_sort(alloc, others, commands, ways, place, chain)
        }
        Err(fault) => Ok(Err(fault)),
    }
}

// The blocks of the end of a line, where it may be there.
fn ends_of(alloc: Global, ways: &[Way], place: &Place) -> Result<Vec<Block>, AllocError>
    ensures { IfOk result (λ made. made.items ≡ ends_of ways.now (site_of place.now).positions) }
{
    let mut made = Vec::new(alloc);
    if may_end(ways, &place.positions) {
        made.push(Block::confirm(0))?;
    }
    Ok(made)
}

// The chain of a place without its fields and guide words, behind these tables.
pub(crate) fn chain_of(
    alloc: Global,
    commands: &[Command],
    ways: &[Way],
    place: &Place,
    tables: Vec<Table>,
) -> Result<Result<Chain, GraphFault>, AllocError>
    ensures { IfOk result (λ made. made ≡ chain_of commands.now ways.now (site_of place.now) tables.items) }
{
    let blocks = ends_of(alloc, ways, place)?;
    match with_switches(alloc, commands, ways, place, Chain { tables, blocks })? {
        Ok(chain) => with_keywords(alloc, commands, ways, place, chain),
        Err(fault) => Ok(Err(fault)),
    }
}

// Puts the blocks of a field behind others.
fn push_blocks(
    blocks: &mut Vec<Block>,
    part: Option<&Part>,
    range: Option<(u32, u32)>,
    next: u16,
) -> Result<(), AllocError>
    ensures { IfOk result (λ _. blocks.new.items
        ≡ blocks.old.items ++ blocks_of (option_copied part.entry) range next) }
{
    match part {
        Some(Part::Field(name, kinds)) => push_fields(blocks, name, range, next, kinds.as_slice()),
        _ => Ok(()),
    }
}

// Puts the block of a guide word behind others.
fn push_guide(blocks: &mut Vec<Block>, part: Option<&Part>, next: u16) -> Result<(), AllocError>
    ensures { IfOk result (λ _. blocks.new.items
        ≡ blocks.old.items ++ guides_of (option_copied part.entry) next) }
{
    match part {
        Some(Part::Guide(name)) => {
            blocks.push(Block::guide(name.as_str(), next))?;
            Ok(())
        }
        _ => Ok(()),
    }
}

fn range_at(ways: &[Way], exit: Exit) -> Option<(u32, u32)>
    ensures { result ≡ range_of ways.now exit.position }
{
    step_of(ways, exit.position)?.range
}

// Puts the fields of a place behind other blocks.
pub(crate) fn push_all_fields(
    blocks: &mut Vec<Block>,
    commands: &[Command],
    ways: &[Way],
    exits: &[Exit],
) -> Result<(), AllocError>
    ensures { IfOk result (λ _. blocks.new.items
        ≡ blocks.old.items ++ flat_map (field_blocks commands.now ways.now) exits.now) }
{
    for exit in exits {
        let part = part_of(commands, ways, exit.position);
        push_blocks(blocks, part, range_at(ways, *exit), node_of(exit.place))?;
    }
    Ok(())
}

// Puts the guide words of a place behind other blocks.
pub(crate) fn push_all_guides(
    blocks: &mut Vec<Block>,
    commands: &[Command],
    ways: &[Way],
    exits: &[Exit],
) -> Result<(), AllocError>
    ensures { IfOk result (λ _. blocks.new.items
        ≡ blocks.old.items ++ flat_map (guide_blocks commands.now ways.now) exits.now) }
{
    for exit in exits {
        let part = part_of(commands, ways, exit.position);
        push_guide(blocks, part, node_of(exit.place))?;
    }
    Ok(())
}

fn field_name(part: Option<&Part>) -> Option<Name>
    ensures { result ≡ field_name (option_copied part.entry) }
{
    match part {
        Some(Part::Field(name, _)) => Some(Name::new(name.as_str())),
        _ => None,
    }
}

// The name of the first field.
pub(crate) fn first_field(commands: &[Command], ways: &[Way], exits: &[Exit]) -> Option<Name>
    ensures { result ≡ first_field commands.now ways.now exits.now }
{
    for exit in exits {
        let name = field_name(part_of(commands, ways, exit.position));
        if name.is_some() {
            return name;
        }
    }
    None
}
