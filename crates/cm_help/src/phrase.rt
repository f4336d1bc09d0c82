// What a block reads, in words.
#![tactic(auto, using(cm_io::proofs::Texts::texts))]

ghost use Rattle.std.specs.Prelude.{◌≡◌, ◌<◌, ◌++◌, ◌&&◌, true, drop, None};
ghost use Rattle.cm_text.specs.ScreenBytes.{end_of_line};
ghost use Rattle.cm_tables.specs.Listing.{first_place};
ghost use Rattle.cm_io.specs.Writer.{Writes};
ghost use Rattle.cm_blocks.specs.Fault.{has_table};
ghost use Rattle.cm_blocks.specs.Once.{fields_at, may_come};
ghost use Rattle.cm_blocks.specs.Well.{IsWellBlock};
ghost use Rattle.cm_help.specs.Phrase.{choices, colon, entry_help, entry_line, entry_lines, function_names, function_phrase, guide_end, guide_word, indent, keywords, none_matches, one_of, phrase, quote, words};

use crate::names::{gap, put_names};
use crate::numbers::put_numbers;
use cm_blocks::{Block, Field, Function, Grammar, may_come};
use cm_hooks::Rules;
use cm_io::{Sink, Writer};
use cm_tables::{Entry, Table};
use cm_text::{Name, end_of_line};

#[tactic(auto, unfolding(crate::specs::Phrase::indent))]
fn indent(switch: bool) -> &'static [u8]
    ensures { result.now ≡ indent switch }
{
    if switch { b"  /" } else { b"  " }
}

#[tactic(auto, unfolding(crate::specs::Phrase::colon))]
fn colon(has_value: bool) -> &'static [u8]
    ensures { result.now ≡ colon has_value }
{
    if has_value { b":" } else { b"" }
}

#[tactic(auto, unfolding(crate::specs::Phrase::one_of))]
fn one_of() -> &'static [u8]
    ensures { result.now ≡ one_of }
{
    b"one of the following:"
}

#[tactic(auto, unfolding(crate::specs::Phrase::none_matches))]
fn none_matches() -> &'static [u8]
    ensures { result.now ≡ none_matches }
{
    b"keyword, none matches"
}

#[tactic(auto, unfolding(crate::specs::Phrase::guide_word))]
fn guide_word() -> &'static [u8]
    ensures { result.now ≡ guide_word }
{
    b"guide word ("
}

#[tactic(auto, unfolding(crate::specs::Phrase::guide_end))]
fn guide_end() -> &'static [u8]
    ensures { result.now ≡ guide_end }
{
    b")"
}

#[tactic(auto, unfolding(crate::specs::Phrase::quote))]
fn quote() -> &'static [u8]
    ensures { result.now ≡ quote }
{
    b"\""
}

// Puts the help of an entry after the entry, where it has one.
#[tactic(auto, using(cm_io::proofs::Texts::texts, cm_io::proofs::Texts::each))]
fn put_entry_help<S: Sink>(help: &Option<Name>, out: &mut Writer<'_, S>)
    ensures { Writes S.Sink out.old out.new (entry_help help.now) }
{
    if let Some(help) = help {
        out.put(gap());
        out.put(help.as_bytes());
    }
}

// Puts an entry on a line of its own.
#[tactic(auto, using(cm_io::proofs::Texts::texts), unfolding(crate::specs::Phrase::entry_line))]
fn put_entry<S: Sink>(switch: bool, entry: &Entry, out: &mut Writer<'_, S>)
    ensures { Writes S.Sink out.old out.new (entry_line switch entry.now) }
{
    out.put(end_of_line());
    out.put(indent(switch));
    out.put(entry.text.as_bytes());
    out.put(colon(switch && entry.colon));
    put_entry_help(&entry.help, out);
}

// The position of the first listed entry of a block's table that goes on from an atom and may come behind these fields.
#[tactic(auto, using(crate::proofs::Entries::first_comes, crate::proofs::Entries::choices_end))]
fn first_choice(
    grammar: &Grammar,
    fields: &[Option<Field>],
    block: &Block,
    table: &Table,
    atom: &[u8],
) -> Option<u16>
    ensures { result
        ≡ first_place (choices (may_come grammar.now (fields_at fields.now) block.now) 0 table.now atom.now) }
{
    let mut from = 0;
    while let Some(position) = table.next_listed(from, atom) {
        if may_come(grammar, fields, block, position) {
            return Some(position);
        }
        from = position + 1;
    }
    None
}

// Puts these entries, one after the other.
#[tactic(auto, using(cm_io::proofs::Texts::turns, crate::proofs::Entries::choices_end))]
fn put_entries<S: Sink>(
    switch: bool,
    grammar: &Grammar,
    fields: &[Option<Field>],
    block: &Block,
    table: &Table,
    atom: &[u8],
    out: &mut Writer<'_, S>,
)
    ensures { Writes S.Sink out.old out.new
        (entry_lines switch (choices (may_come grammar.now (fields_at fields.now) block.now) 0 table.now atom.now)) }
{
    let mut from = 0;
    while let Some(position) = table.next_listed(from, atom) {
        from = position + 1;
        if !may_come(grammar, fields, block, position) {
            continue;
        }
        put_entry(switch, table.entry(position), out);
    }
}

// Puts these entries, or that there are none.
fn put_keywords<S: Sink>(
    switch: bool,
    grammar: &Grammar,
    fields: &[Option<Field>],
    block: &Block,
    table: &Table,
    atom: &[u8],
    out: &mut Writer<'_, S>,
)
    ensures { Writes S.Sink out.old out.new
        (keywords switch (choices (may_come grammar.now (fields_at fields.now) block.now) 0 table.now atom.now)) }
{
    if first_choice(grammar, fields, block, table, atom).is_none() {
        out.put(none_matches());
    } else {
        out.put(one_of());
        put_entries(switch, grammar, fields, block, table, atom, out);
    }
}

// Puts a text between two others.
fn put_between<S: Sink>(before: &[u8], text: &[u8], after: &[u8], out: &mut Writer<'_, S>)
    ensures { Writes S.Sink out.old out.new (before.now ++ text.now ++ after.now) }
{
    out.put(before);
    out.put(text);
    out.put(after);
}

// What is typed of a switch after its slash.
fn after_slash(atom: &[u8]) -> &[u8]
    ensures { result.now ≡ drop 1 atom.now }
{
    match atom {
        [] => atom,
        [_, after @ ..] => after,
    }
}

// Puts what the function of a block reads, in its own words.
#[tactic(auto, unfolding(crate::specs::Phrase::function_phrase))]
fn put_function<R: Rules, S: Sink>(
    grammar: &Grammar,
    fields: &[Option<Field>],
    block: &Block,
    atom: &[u8],
    rules: &R,
    out: &mut Writer<'_, S>,
)
    requires table { has_table grammar.now.tables block.now.function ≡ true }
    ensures { Writes S.Sink out.old out.new (function_phrase grammar.now (R.meanings rules.now)
        (may_come grammar.now (fields_at fields.now) block.now) block.now.function atom.now) }
{
    match &block.function {
        Function::Key(table) => put_keywords(
            false,
            grammar,
            fields,
            block,
            grammar.table(*table),
            atom,
            out,
        ),
        Function::Switch(table) => put_keywords(
            true,
            grammar,
            fields,
            block,
            grammar.table(*table),
            after_slash(atom),
            out,
        ),
        Function::Noise(text) => put_between(guide_word(), text.as_bytes(), guide_end(), out),
        Function::Number => out.put(b"decimal number"),
        Function::Numeral(numbers) => put_numbers(numbers, out),
        Function::Word => out.put(b"word"),
        Function::Run(_) => out.put(b"field"),
        Function::Quoted => out.put(b"quoted string"),
        Function::LongQuoted => out.put(b"quoted string"),
        Function::Token(text) => put_between(quote(), text.as_bytes(), quote(), out),
        Function::Date => out.put(b"date, as 5-JAN-1980"),
        Function::User => out.put(b"user name"),
        Function::Directory => out.put(b"directory name"),
        Function::InFile => out.put(b"input file"),
        Function::OutFile => out.put(b"output file"),
        Function::AnyFile => out.put(b"file specification"),
        Function::Text => out.put(b"text to end of line"),
        Function::Comma => out.put(b"comma"),
        Function::Confirm => out.put(b"confirm with carriage return"),
        Function::Hook(id) => out.put(rules.help(*id).as_bytes()),
    }
}

// Puts what a block reads in words: its own, where it has any.
#[tactic(auto)]
fn put_words<R: Rules, S: Sink>(
    grammar: &Grammar,
    fields: &[Option<Field>],
    block: &Block,
    atom: &[u8],
    rules: &R,
    out: &mut Writer<'_, S>,
)
    requires well { IsWellBlock grammar.now block.now }
    ensures { Writes S.Sink out.old out.new
        (words grammar.now (R.meanings rules.now) (fields_at fields.now) atom.now block.now) }
{
    match &block.help {
        Some(text) => out.put(text.as_bytes()),
        None => put_function(grammar, fields, block, atom, rules, out),
    }
}

// Puts the names that a function reads, where they are listed.
#[tactic(auto, using(cm_io::proofs::Texts::writes_none))]
fn put_function_names<R: Rules, S: Sink>(
    function: &Function,
    atom: &[u8],
    rules: &R,
    out: &mut Writer<'_, S>,
)
    ensures { Writes S.Sink out.old out.new (function_names (R.meanings rules.now) function.now atom.now) }
{
    if let Function::Hook(id) = function {
        put_names(rules, *id, atom, out);
    }
}

// Puts what a block reads of which the atom is typed.
pub(crate) fn put_phrase<R: Rules, S: Sink>(
    grammar: &Grammar,
    fields: &[Option<Field>],
    block: &Block,
    atom: &[u8],
    rules: &R,
    out: &mut Writer<'_, S>,
)
    requires well { IsWellBlock grammar.now block.now }
    ensures { Writes S.Sink out.old out.new
        (phrase grammar.now (R.meanings rules.now) (fields_at fields.now) atom.now block.now) }
{
    put_words(grammar, fields, block, atom, rules, out);
    put_function_names(&block.function, atom, rules, out);
}
