// Options: keywords and switches that a line has at most once.
ghost use Rattle.std.specs.Prelude.{◌≡◌};
ghost use Rattle.std.specs.List.{list_any};
ghost use Rattle.cm_blocks.specs.Once.{entry_of, field_table, fields_at, is_number, is_option, is_option_at, is_used, may_come, once_table, repeats};

use crate::{Block, Field, Function, Grammar};
use cm_fields::Value;

// The table of which a block takes each entry once.
fn once_table(block: &Block) -> Option<u16>
    ensures { result ≡ once_table block.now }
{
    if !block.once {
        return None;
    }
    match &block.function {
        Function::Key(table) => Some(*table),
        Function::Switch(table) => Some(*table),
        _ => None,
    }
}

// That of the block that took a field.
fn field_table(grammar: &Grammar, field: &Field) -> Option<u16>
    ensures { result ≡ field_table grammar.now field.now }
{
    match grammar.block(field.node, field.block) {
        Some(block) => once_table(block),
        None => None,
    }
}

// The position of the entry that a keyword or a switch is.
fn entry_of(value: &Value) -> Option<u16>
    ensures { result ≡ entry_of value.now }
{
    match value {
        Value::Key { entry, .. } => Some(*entry),
        Value::Switch { entry, .. } => Some(*entry),
        _ => None,
    }
}

fn is_number(number: u16, found: Option<u16>) -> bool
    ensures { result ≡ is_number number found }
{
    match found {
        Some(it) => it == number,
        None => false,
    }
}

// Whether a field is the entry at this position of this table, taken by a block that takes each once.
fn is_option(grammar: &Grammar, table: u16, entry: u16, field: &Field) -> bool
    ensures { result ≡ is_option grammar.now table entry field.now }
{
    is_number(table, field_table(grammar, field)) && is_number(entry, entry_of(&field.value))
}

// Whether there is a field at a place that is this option.
fn is_option_at(grammar: &Grammar, table: u16, entry: u16, place: &Option<Field>) -> bool
    ensures { result ≡ is_option_at grammar.now table entry place.now }
{
    match place {
        Some(field) => is_option(grammar, table, entry, field),
        None => false,
    }
}

// Whether a field at one of these places is this option.
fn has_option(grammar: &Grammar, places: &[Option<Field>], table: u16, entry: u16) -> bool
    ensures { result ≡ list_any (is_option_at grammar.now table entry) places.now }
{
    places
        .iter()
        .any(|place| is_option_at(grammar, table, entry, place))
}

/// Whether the entry at this position of this table is an option that one of these fields is already: a keyword or a
/// switch that a block with the flag `once` took. A place that has no field says nothing.
#[tactic(auto, using(crate::proofs::Onces::used_among))]
pub fn is_used(grammar: &Grammar, fields: &[Option<Field>], table: u16, entry: u16) -> bool
    // [once]
    ensures { result ≡ is_used grammar.now (fields_at fields.now) table entry }
{
    has_option(grammar, fields, table, entry)
}

/// Whether the entry at this position of a block's table may still come where a line has these fields: where the block
/// takes each entry once, none of them is it yet. A place that has no field says nothing.
#[tactic(auto, unfolding(crate::specs::Once::may_come))]
pub fn may_come(grammar: &Grammar, fields: &[Option<Field>], block: &Block, position: u16) -> bool
    // [once]
    ensures { result ≡ may_come grammar.now (fields_at fields.now) block.now position }
{
    match once_table(block) {
        Some(table) => !is_used(grammar, fields, table, position),
        None => true,
    }
}

/// Whether a field is an option that one of the fields before it is already: the same entry of the same table, both
/// taken by blocks with the flag `once`. A place that has no field says nothing.
#[tactic(auto, unfolding(crate::specs::Once::repeats))]
pub fn repeats(grammar: &Grammar, before: &[Option<Field>], field: &Field) -> bool
    // [once]
    ensures { result ≡ repeats grammar.now (fields_at before.now) field.now }
{
    match (field_table(grammar, field), entry_of(&field.value)) {
        (Some(table), Some(entry)) => is_used(grammar, before, table, entry),
        _ => false,
    }
}
