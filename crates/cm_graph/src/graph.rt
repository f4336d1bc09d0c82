// The grammar of a language.
ghost use Rattle.std.specs.Prelude.{◌≡◌, [], IfOk, map};
ghost use Rattle.cm_language.specs.Places.{site_of};
ghost use Rattle.cm_graph.specs.Graphs.{command_at, drawn, graph_fault, graph_of, graph_of_sheet, node_with, with_place};

use crate::chain::{Chain, chain_of, first_field, push_all_fields, push_all_guides};
use crate::clash::{first_command, place_fault};
use crate::fault::{GraphFault, GraphReason};
use crate::help::bad_help;
use cm_blocks::{Block, Grammar, GrammarFault, Node};
use cm_language::{Exit, Place};
use cm_synopsis::{Command, Way};
use cm_tables::Table;
use std::alloc::{AllocError, Global};
use std::marker::Model;

// The nodes and the tables so far.
#[derive(Debug, Drop)]
struct Sheet {
    nodes: Vec<Node>,
    tables: Vec<Table>,
}

impl Model for Sheet {
    ghost use Rattle.cm_graph.specs.Graphs.{Sheet};

    ghost Value = { Sheet };

    ghost view = { λ it. record { nodes = it.nodes.items; tables = it.tables.items } };
}

// The node of a place behind whose tables the blocks are these.
fn node_with(
    commands: &[Command],
    ways: &[Way],
    exits: &[Exit],
    mut blocks: Vec<Block>,
) -> Result<Node, AllocError>
    ensures { IfOk result (λ made. made ≡ node_with commands.now ways.now exits.now blocks.items) }
{
    let awaits = if blocks.is_empty() {
        first_field(commands, ways, exits)
    } else {
        None
    };
    push_all_fields(&mut blocks, commands, ways, exits)?;
    push_all_guides(&mut blocks, commands, ways, exits)?;
    Ok(Node {
        awaits,
        ..Node::new(blocks)
    })
}

// The sheet with the node of a place.
fn with_place(
    alloc: Global,
    commands: &[Command],
    ways: &[Way],
    number: usize,
    sheet: Sheet,
    place: &Place,
) -> Result<Result<Sheet, GraphFault>, AllocError>
    ensures { IfOk result (λ made. made ≡ with_place commands.now ways.now number sheet (site_of place.now)) }
{
    if let Some(fault) = place_fault(commands, ways, number, place) {
        return Ok(Err(fault));
    }
    let Sheet { mut nodes, tables } = sheet;
    match chain_of(alloc, commands, ways, place, tables)? {
        Ok(Chain { tables, blocks }) => {
            nodes.push(node_with(commands, ways, &place.exits, blocks)?)?;
            Ok(Ok(Sheet { nodes, tables }))
        }
        Err(fault) => Ok(Err(fault)),
    }
}

// The sheet of all places.
fn drawn(
    alloc: Global,
    commands: &[Command],
    ways: &[Way],
    places: &[Place],
) -> Result<Result<Sheet, GraphFault>, AllocError>
    ensures { IfOk result (λ made. made
        ≡ drawn commands.now ways.now 0 (record { nodes = []; tables = [] }) (map site_of places.now)) }
{
    let mut sheet = Sheet {
        nodes: Vec::new(alloc),
        tables: Vec::new(alloc),
    };
    for number in 0..places.len() {
        match with_place(alloc, commands, ways, number, sheet, &places[number])? {
            Ok(next) => sheet = next,
            Err(fault) => return Ok(Err(fault)),
        }
    }
    Ok(Ok(sheet))
}

// The first command of a place with a number.
fn command_at(places: &[Place], number: u16) -> usize
    ensures { result ≡ command_at (map site_of places.now) number }
{
    match places.get(usize::from(number)) {
        Some(place) => first_command(&place.positions),
        None => 0,
    }
}

// Why a sheet is no grammar.
fn graph_fault(places: &[Place], fault: GrammarFault) -> GraphFault
    ensures { result ≡ graph_fault (map site_of places.now) fault }
{
    let (command, reason) = match fault {
        GrammarFault::TooMany => (0, GraphReason::ManyTables),
        GrammarFault::ChainLong(number) => (command_at(places, number), GraphReason::LongChain),
        _ => (0, GraphReason::NotDrawn),
    };
    GraphFault {
        command,
        other: command,
        reason,
    }
}

// The grammar of a sheet.
fn grammar_of(places: &[Place], sheet: Sheet) -> Result<Grammar, GraphFault>
    ensures { result ≡ graph_of_sheet (map site_of places.now) sheet }
{
    match Grammar::new(sheet.nodes, sheet.tables) {
        Ok(grammar) => Ok(grammar),
        Err(fault) => Err(graph_fault(places, fault)),
    }
}

/// The grammar of commands, whose ways and places these are; or the first fault. The node of a place has its number,
/// and these blocks: the end of a line, where one may be there; the switches and the keywords, of both first those that
/// a line has once; each field, a block for each of its kinds; and its guide word. The help of a command is that of its
/// last keyword outside brackets.
///
/// BadHelp of the first command with a help of more than 39 bytes, or of a byte that is not shown as it is. Then, place
/// by place: EmptyLine where the first may end; SameLine where two commands end at one; Clash where a line cannot tell
/// what comes next: two guide words, a guide word and a field, or fields of two commands; BadKeyword; ManyKeywords.
/// Then ManyTables and LongChain, where a grammar has not so many tables or blocks; NotDrawn where the places are none
/// of a language.
#[tactic(auto, unfolding(crate::specs::Graphs::graph_of))]
pub fn draw(
    alloc: Global,
    commands: &[Command],
    ways: &[Way],
    places: &[Place],
) -> Result<Result<Grammar, GraphFault>, AllocError>
    // [language-graph]
    ensures { IfOk result (λ made. made ≡ graph_of commands.now ways.now (map site_of places.now)) }
{
    if let Some(command) = bad_help(commands) {
        return Ok(Err(GraphFault {
            command,
            other: command,
            reason: GraphReason::BadHelp,
        }));
    }
    match drawn(alloc, commands, ways, places)? {
        Ok(sheet) => Ok(grammar_of(places, sheet)),
        Err(fault) => Ok(Err(fault)),
    }
}
