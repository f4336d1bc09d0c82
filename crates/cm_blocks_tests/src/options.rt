// Options, of which a line has each once: whether a field repeats one before it, and which are used.
ghost use Rattle.std.specs.Prelude.{◌≡◌, ◌<◌};

use crate::cases::{compare, debug_text, numbered, place_of, sides};
use crate::grammars::{entry, nodes_of};
use crate::sample::Sample;
use crate::setting::Sizes;
use cm_blocks::{
    Block, Chain, Field, Function, Grammar, Role, Steps, is_used, may_come, repeats, try_chain,
};
use cm_tables::Table;
use std::alloc::Global;
use std::marker::Brand;
use std::sync::ledger::{Blank, Ledger};
use std::test::Fail;

fn table_of(alloc: Global, first: &str, second: &str) -> Result<Table, Fail> {
    let entries = [word(first)?, word(second)?];
    Ok(Table::new(Vec::from_array(alloc, entries)?)?)
}

fn word(text: &str) -> Result<cm_tables::Entry, Fail> {
    if text.len() > cm_text::NAME_LIMIT {
        return Err(Fail::new("a word is too long"));
    }
    Ok(entry(text, false, 0, 0))
}

fn grammar(alloc: Global, nodes: &str) -> Result<Grammar, Fail> {
    let mut tables = Vec::new(alloc);
    tables.push(table_of(alloc, "MTU", "SPEED")?)?;
    tables.push(table_of(alloc, "FAST", "MTU")?)?;
    Ok(Grammar::new(nodes_of(alloc, nodes)?, tables)?)
}

// The field that the chain of a node takes from the text at the place that is given.
fn field_of<L: Ledger>(
    grammar: &Grammar,
    given: &str,
    steps: &mut Steps<L>,
) -> Result<Field, Fail> {
    let (node, rest) = numbered(given)?;
    let placed = place_of(rest)?;
    if node >= grammar.nodes() {
        return Err(Fail::new("no such node"));
    }
    match try_chain(
        grammar,
        node,
        placed.text,
        placed.at,
        &Sample,
        &Sizes,
        steps,
    ) {
        Chain::Field(field) => Ok(field),
        _ => Err(Fail::new("no field")),
    }
}

// The block that took a field.
fn block_of<'a>(grammar: &'a Grammar, field: &Field) -> Result<&'a Block, Fail> {
    if field.node() >= grammar.nodes() {
        return Err(Fail::new("no such node"));
    }
    let chain = grammar.node(field.node()).chain.as_slice();
    Ok(
        chain
            .get(usize::from(field.block()))
            .ok_or("no such block")?,
    )
}

// Of two fields, each by its node, place and text: whether the second repeats the first, of the two entries of the
// first table which the first uses, and of those of the table of the second field's block which may still come.
fn answers_case<L: Ledger>(
    alloc: Global,
    grammar: &Grammar,
    steps: &mut Steps<L>,
    case: &str,
) -> Result<(), Fail> {
    let (given, wanted) = sides(case)?;
    let (first, second) = given.split_once(", ").ok_or("two fields")?;
    let fields = [None, Some(field_of(grammar, first, steps)?)];
    let second = field_of(grammar, second, steps)?;
    let repeated = repeats(grammar, &fields, &second);
    let used = (
        is_used(grammar, &fields, 0, 0),
        is_used(grammar, &fields, 0, 1),
    );
    let block = block_of(grammar, &second)?;
    let may = (
        may_come(grammar, &fields, block, 0),
        may_come(grammar, &fields, block, 1),
    );
    let answer = debug_text(alloc, &(repeated, used, may))?;
    compare(case, answer.as_str(), wanted)
}

// The bytes of the cases, since a ledger cannot be picked where a text is passed.
fn answer_counted<L: Ledger>(
    rt: &HostRuntime,
    blank: Blank,
    grammar: &Grammar,
    cases: &[u8],
) -> Result<(), Fail>
    requires name { blank.name ≡ L.name }
    requires parts { blank.parts ≡ L.parts }
    requires some { 0 < L.parts }
{
    let mut steps: Steps<L> = Steps::new(rt, blank);
    for case in str::from_utf8(cases)?.lines() {
        answers_case(rt.alloc(), grammar, &mut steps, case)?;
    }
    Ok(())
}

// Nodes 0 and 1 take keywords of the first table and switches of the second once each, node 2 keywords of the first as
// often as they come, node 3 numbers.
const NODES: &str = "Key:0+once Switch:1+once Confirm/Key:0+once/Key:0/Number+once";

// Not at another entry, nor at the entry at the same position of another table, nor where one of the two blocks has no
// such flag; but at the same entry taken by another node, and by an abbreviation. Where the block of the second has no
// such flag, each entry may come.
const PAIRS: &str = "0 0 MTU , 0 0 MTU  => (true, (true, false), (false, true))
0 0 MTU , 1 1  m  => (true, (true, false), (false, true))
0 0 MTU , 0 0 S  => (false, (true, false), (false, true))
1 0 SP , 0 0 SPEED  => (true, (false, true), (true, false))
0 0 MTU , 0 0 /FAST  => (false, (true, false), (true, true))
0 0 SPEED , 0 0 /MTU  => (false, (false, true), (true, true))
0 0 /M , 0 2 X /MTU  => (true, (false, false), (true, false))
0 0 MTU , 2 0 MTU  => (false, (true, false), (true, true))
2 0 MTU , 0 0 MTU  => (false, (false, false), (true, true))
2 0 MTU , 2 0 MTU  => (false, (false, false), (true, true))
3 0 7 , 3 0 7  => (false, (false, false), (true, true))";

// Each pair is told as it wants.
fn answer_pairs(rt: &HostRuntime, grammar: &Grammar, cases: &str) -> Result<(), Fail> {
    answer_counted::<Brand>(rt, Blank::new(1), grammar, cases.as_bytes())
}

// [once]
#[test]
fn tells_what_repeats_an_option(rt: HostRuntime) -> Result<(), Fail> {
    answer_pairs(&rt, &grammar(rt.alloc(), NODES)?, PAIRS)
}

const ONCE: &str =
    "Block { function: Key(3), flags: Flags { wild: false, all_generations: false, deleted: false, \
    default_all: false, from_source: false, new: false }, help: None, role: Value, next: 2, once: true }";

#[test]
fn is_once(rt: HostRuntime) -> Result<(), Fail> {
    let block = Block::new(Function::Key(3), Role::Value, 2).once();
    let shown = debug_text(rt.alloc(), &block)?;
    assert_eq!(rt; shown.as_str(), ONCE);
    Ok(())
}
