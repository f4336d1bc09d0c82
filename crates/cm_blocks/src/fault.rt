// The first fault of nodes and tables that are no grammar.
ghost use Rattle.std.specs.Prelude.{◌≡◌, ◌≤◌, true, length, nat_lt};
ghost use Rattle.std.specs.List.{list_all, list_any};
ghost use Rattle.std.specs.Option.{option_map_or};
ghost use Rattle.cm_text.specs.Bytes.{is_shown};
ghost use Rattle.cm_blocks.specs.Fault.{chain_confirms, entries_at, entries_of, grammar_fault, has_bytes, has_flags, has_node_texts, has_numbers, has_phrase, has_range, has_size, has_table, has_texts, is_confirm, is_parenthesis, is_phrase, leads_within, may_read, names_table, node_fault, nodes_fault};

use crate::{Block, Function, GrammarFault, Node};
use cm_fields::may_be_field;
use cm_tables::{Entry, Table};
use cm_text::{Name, is_shown};

/// The most nodes of a grammar.
pub const NODE_LIMIT: usize = 1024;

/// The most keyword tables of a grammar.
pub const TABLE_LIMIT: usize = 64;

/// The most blocks of a node.
pub const BLOCK_LIMIT: usize = 16;

// Whether there are as many nodes and tables as there may be.
fn has_size(nodes: &[Node], tables: &[Table]) -> bool
    ensures { result ≡ has_size (record { nodes = nodes.now; tables = tables.now }) }
{
    !nodes.is_empty() && nodes.len() <= NODE_LIMIT && tables.len() <= TABLE_LIMIT
}

// Whether the table that a function names is there.
fn has_table(tables: &[Table], function: &Function) -> bool
    ensures { result ≡ has_table tables.now function.now }
{
    match function {
        Function::Key(table) => usize::from(*table) < tables.len(),
        Function::Switch(table) => usize::from(*table) < tables.len(),
        _ => true,
    }
}

fn have_tables(tables: &[Table], chain: &[Block]) -> bool
    ensures { result ≡ list_all (names_table tables.now) chain.now }
{
    chain.iter().all(|block| has_table(tables, &block.function))
}

fn is_phrase(text: &[u8]) -> bool
    ensures { result ≡ is_phrase text.now }
{
    !text.is_empty() && is_shown(text)
}

fn has_parenthesis(text: &[u8]) -> bool
    ensures { result ≡ list_any is_parenthesis text.now }
{
    text.iter().any(|byte| *byte == b'(' || *byte == b')')
}

// Whether the text that a function reads is one that it may.
fn has_phrase(function: &Function) -> bool
    ensures { result ≡ has_phrase function.now }
{
    match function {
        Function::Noise(text) => is_phrase(text.as_bytes()) && !has_parenthesis(text.as_bytes()),
        Function::Token(text) => is_phrase(text.as_bytes()),
        _ => true,
    }
}

fn is_shown_or_none(text: &Option<Name>) -> bool
    ensures { result ≡ option_map_or is_shown text.now true }
{
    match text {
        Some(text) => is_shown(text.as_bytes()),
        None => true,
    }
}

fn has_node_texts(node: &Node) -> bool
    ensures { result ≡ has_node_texts node.now }
{
    is_shown_or_none(&node.default) && is_shown_or_none(&node.awaits)
}

fn has_texts(block: &Block) -> bool
    ensures { result ≡ has_texts block.now }
{
    has_phrase(&block.function) && is_shown_or_none(&block.help)
}

fn have_texts(chain: &[Block]) -> bool
    ensures { result ≡ list_all has_texts chain.now }
{
    chain.iter().all(has_texts)
}

// The entries of a table, none where it is not there.
fn entries_at(tables: &[Table], number: u16) -> &[Entry]
    ensures { result.now ≡ entries_at tables.now number }
{
    match tables.get(usize::from(number)) {
        Some(table) => table.entries(),
        None => &[],
    }
}

// The entries of the table that a function names.
fn entries_of<'a>(tables: &'a [Table], function: &Function) -> &'a [Entry]
    ensures { result.now ≡ entries_of tables.now function.now }
{
    match function {
        Function::Key(table) => entries_at(tables, *table),
        Function::Switch(table) => entries_at(tables, *table),
        _ => &[],
    }
}

fn entries_lead_within(entries: &[Entry], nodes: usize) -> bool
    ensures { result ≡ list_all (λ entry. nat_lt entry.next nodes) entries.now }
{
    entries.iter().all(|entry| usize::from(entry.next) < nodes)
}

// Whether the nodes that a block leads to are there, of so many.
fn leads_within(tables: &[Table], nodes: usize, block: &Block) -> bool
    ensures { result ≡ leads_within tables.now nodes block.now }
{
    usize::from(block.next) < nodes
        && entries_lead_within(entries_of(tables, &block.function), nodes)
}

fn lead_within(tables: &[Table], nodes: usize, chain: &[Block]) -> bool
    ensures { result ≡ list_all (leads_within tables.now nodes) chain.now }
{
    chain.iter().all(|block| leads_within(tables, nodes, block))
}

// Whether the bytes that a function reads are some that a field may have.
fn may_read(function: &Function) -> bool
    ensures { result ≡ may_read function.now }
{
    match function {
        Function::Run(set) => !set.is_empty() && may_be_field(*set),
        _ => true,
    }
}

fn has_bytes(block: &Block) -> bool
    ensures { result ≡ has_bytes block.now }
{
    may_read(&block.function)
}

fn have_bytes(chain: &[Block]) -> bool
    ensures { result ≡ list_all has_bytes chain.now }
{
    chain.iter().all(has_bytes)
}

// Whether the numbers that a function reads are some that a field may be.
fn has_range(function: &Function) -> bool
    ensures { result ≡ has_range function.now }
{
    match function {
        Function::Numeral(numbers) => numbers.is_valid(),
        _ => true,
    }
}

fn has_numbers(block: &Block) -> bool
    ensures { result ≡ has_numbers block.now }
{
    has_range(&block.function)
}

fn have_numbers(chain: &[Block]) -> bool
    ensures { result ≡ list_all has_numbers chain.now }
{
    chain.iter().all(has_numbers)
}

fn has_flags(block: &Block) -> bool
    ensures { result ≡ has_flags block.now }
{
    block.flags.wild || !block.flags.all_generations
}

fn have_flags(chain: &[Block]) -> bool
    ensures { result ≡ list_all has_flags chain.now }
{
    chain.iter().all(has_flags)
}

// The fault of a node of this number, of so many nodes.
fn node_fault(tables: &[Table], nodes: usize, number: u16, node: &Node) -> Option<GrammarFault>
    ensures { result ≡ node_fault tables.now nodes number node.now }
{
    let chain = node.chain.as_slice();
    if chain.is_empty() {
        Some(GrammarFault::EmptyChain(number))
    } else if chain.len() > BLOCK_LIMIT {
        Some(GrammarFault::ChainLong(number))
    } else if !have_tables(tables, chain) {
        Some(GrammarFault::TableRange(number))
    } else if !lead_within(tables, nodes, chain) {
        Some(GrammarFault::NextRange(number))
    } else if !(has_node_texts(node) && have_texts(chain)) {
        Some(GrammarFault::BadText(number))
    } else if !have_bytes(chain) {
        Some(GrammarFault::BadBytes(number))
    } else if !have_numbers(chain) {
        Some(GrammarFault::BadNumbers(number))
    } else if !have_flags(chain) {
        Some(GrammarFault::BadFlags(number))
    } else {
        None
    }
}

// The fault of the first node that has one.
fn nodes_fault(tables: &[Table], nodes: &[Node]) -> Option<GrammarFault>
    requires { length nodes.now ≤ NODE_LIMIT }
    ensures { result ≡ nodes_fault tables.now (length nodes.now) 0 nodes.now }
{
    for (number, node) in nodes.iter().enumerate() {
        let fault = node_fault(tables, nodes.len(), number as u16, node);
        if fault.is_some() {
            return fault;
        }
    }
    None
}

fn is_confirm(block: &Block) -> bool
    ensures { result ≡ is_confirm block.now.function }
{
    matches!(block.function, Function::Confirm)
}

fn chain_confirms(node: &Node) -> bool
    ensures { result ≡ chain_confirms node.now }
{
    node.chain.as_slice().iter().any(is_confirm)
}

fn confirms(nodes: &[Node]) -> bool
    ensures { result ≡ list_any chain_confirms nodes.now }
{
    nodes.iter().any(chain_confirms)
}

// The first fault of all.
#[tactic(auto, unfolding(crate::specs::Fault::grammar_fault))]
pub(crate) fn grammar_fault(nodes: &[Node], tables: &[Table]) -> Option<GrammarFault>
    ensures { result ≡ grammar_fault (record { nodes = nodes.now; tables = tables.now }) }
{
    if !has_size(nodes, tables) {
        return Some(GrammarFault::TooMany);
    }
    let fault = nodes_fault(tables, nodes);
    if fault.is_some() {
        return fault;
    }
    if confirms(nodes) {
        None
    } else {
        Some(GrammarFault::NoConfirm)
    }
}
