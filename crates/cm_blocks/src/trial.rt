// What the function of one block makes of a text, and which node follows its field.
ghost use Rattle.std.specs.Prelude.{◌≡◌, ◌-◌, ◌≤◌, ◌<◌, true, drop, length};
ghost use Rattle.cm_fields.specs.Local.{IsSeen};
ghost use Rattle.cm_files.specs.Fields.{file};
ghost use Rattle.cm_blocks.specs.Fault.{has_table};
ghost use Rattle.cm_blocks.specs.Setting.{setting};
ghost use Rattle.cm_blocks.specs.Trial.{entry_next, keyword_next, looked_of, next_of, table_of, trial};

use crate::{Block, Function, Grammar, key, switch};
use cm_dates::date;
use cm_fields::{
    FileKind, Try, Value, comma, confirm, long_quoted, noise, number, numeral, quoted, run_field,
    text_field, token, word,
};
use cm_files::{Names, directory, file, user};
use cm_hooks::{Rules, hook_field};
use cm_text::TEXT_LIMIT;

/// What the function of a block makes of a text from a place on, with the flags of the block where it reads files or
/// directories. No counter rises, and no field comes of it: that is `try_chain` alone.
#[tactic(auto, unfolding(crate::specs::Trial::trial))]
pub fn try_function<N: Names, R: Rules>(
    grammar: &Grammar,
    block: &Block,
    text: &[u8],
    at: usize,
    names: &N,
    rules: &R,
) -> Try
    requires table { has_table grammar.now.tables block.now.function ≡ true }
    requires short { length text.now ≤ TEXT_LIMIT }
    requires place { at ≤ length text.now }
    ensures value { result ≡ trial (setting grammar.now (N.catalogue names.now) (R.meanings rules.now))
        block.now.function block.now.flags (drop at text.now) at }
    ensures seen { IsSeen (length text.now - at) result }
{
    // Each arm returns: a value in which the arms join would be copied once more.
    match &block.function {
        Function::Key(table) => return key(grammar.table(*table), text, at),
        Function::Switch(table) => return switch(grammar.table(*table), text, at),
        Function::Noise(phrase) => return noise(phrase.as_str(), text, at),
        Function::Number => return number(text, at),
        Function::Numeral(numbers) => return numeral(*numbers, text, at),
        Function::Word => return word(text, at),
        Function::Run(set) => return run_field(*set, text, at),
        Function::Quoted => return quoted(text, at),
        Function::LongQuoted => return long_quoted(text, at),
        Function::Token(phrase) => return token(phrase.as_str(), text, at),
        Function::Date => return date(text, at),
        Function::User => return user(names, text, at),
        Function::Directory => return directory(block.flags.new, names, text, at),
        Function::InFile => return file_of(FileKind::In, block, names, text, at),
        Function::OutFile => return file_of(FileKind::Out, block, names, text, at),
        Function::AnyFile => return file_of(FileKind::Any, block, names, text, at),
        Function::Text => return text_field(text, at),
        Function::Comma => return comma(text, at),
        Function::Confirm => return confirm(text, at),
        Function::Hook(id) => return hook_field(rules, *id, text, at),
    }
}

// What the block makes of a file specification. The flags are copied for it alone.
fn file_of<N: Names>(kind: FileKind, block: &Block, names: &N, text: &[u8], at: usize) -> Try
    requires short { length text.now ≤ TEXT_LIMIT }
    requires place { at ≤ length text.now }
    ensures { result ≡ file (N.catalogue names.now) kind block.now.flags (drop at text.now) at }
{
    file(kind, block.flags, names, text, at)
}

// How many bytes an answer looked at, of so many.
pub(crate) fn looked_of(size: usize, answer: Try) -> usize
    requires { IsSeen size answer }
    ensures value { result ≡ looked_of size answer }
    ensures within { result ≤ size }
{
    match answer {
        Try::Accept { looked, .. } => usize::from(looked),
        Try::Refuse { looked, .. } => usize::from(looked),
        Try::More => size,
    }
}

// The node that follows the entry of a table.
fn entry_next(grammar: &Grammar, table: u16, entry: u16) -> u16
    requires { table < length grammar.now.tables }
    ensures { result ≡ entry_next (table_of grammar.now table) entry }
{
    match grammar.table(table).entries().get(usize::from(entry)) {
        Some(entry) => entry.next,
        None => 0,
    }
}

// The node that follows a keyword or a switch, by its entry.
fn keyword_next(grammar: &Grammar, block: &Block, entry: u16) -> u16
    requires { has_table grammar.now.tables block.now.function ≡ true }
    ensures { result ≡ keyword_next grammar.now block.now.function block.now.next entry }
{
    match block.function {
        Function::Key(table) => entry_next(grammar, table, entry),
        Function::Switch(table) => entry_next(grammar, table, entry),
        _ => block.next,
    }
}

// The node that follows a field of a block.
pub(crate) fn next_of(grammar: &Grammar, block: &Block, value: Value) -> u16
    requires { has_table grammar.now.tables block.now.function ≡ true }
    ensures { result ≡ next_of grammar.now block.now value }
{
    match value {
        Value::Key { entry, .. } => keyword_next(grammar, block, entry),
        Value::Switch { entry, .. } => keyword_next(grammar, block, entry),
        _ => block.next,
    }
}
