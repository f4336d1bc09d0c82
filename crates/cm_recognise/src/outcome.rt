// How a field goes on that a block has begun to read.
ghost use Rattle.std.specs.Prelude.{◌≡◌, ◌≤◌, ◌<◌, ◌+◌, ◌==◌, ◌&&◌, [], ◌∷◌, ◌++◌, if◌then◌else◌, drop, length, true};
ghost use Rattle.cm_tables.specs.Common.{common};
ghost use Rattle.cm_tables.specs.Look.{IsWithin, has_text, look};
ghost use Rattle.cm_blocks.specs.Fault.{has_table};
ghost use Rattle.cm_blocks.specs.Keyword.{has_colon};
ghost use Rattle.cm_blocks.specs.Once.{fields_at};
ghost use Rattle.cm_blocks.specs.Setting.{setting};
ghost use Rattle.cm_blocks.specs.Trial.{trial};
ghost use Rattle.cm_blocks.specs.Well.{IsWellBlock};
ghost use Rattle.cm_recognise.specs.Candidates.{missing};
ghost use Rattle.cm_recognise.specs.Capitals.{in_case};
ghost use Rattle.cm_recognise.specs.Outcome.{IsShort, entry_outcome, guide, hook_outcome, keyword_outcome, look_outcome, outcome, phrase_outcome, plain_outcome, shared_outcome, switch_outcome};
ghost use Rattle.cm_recognise.specs.Remaining.{remains};

use crate::file_outcome::{Request, directory_outcome, file_outcome, user_outcome};
use crate::letters::in_case;
use crate::remaining::{common_among, has_text_among, look_among};
use crate::{Bytes, Mode};
use arrayvec::ArrayVec;
use cm_blocks::{Block, Field, Function, Grammar, try_function};
use cm_fields::{FileKind, Try};
use cm_files::Names;
use cm_hooks::{Rules, Tail};
use cm_tables::{Look, Table};
use cm_text::{LINE_LIMIT, Name, TEXT_LIMIT, begins_with};

// The most bytes with which a field goes on: a name and a type of 39 bytes and a point after each, and a generation
// of 10.
pub(crate) const TAIL_LIMIT: usize = 90;

/// How a field goes on of which the beginning is typed (COMND's recognition).
#[derive(Debug, Drop)]
pub enum Outcome {
    /// In no way that is certain.
    Nothing,
    /// With these bytes, or none, and then in several ways or in no certain one.
    Part(Bytes),
    /// With these bytes, after which it goes on by typing, as the value of a switch.
    Piece(Bytes),
    /// With these bytes, and then it is whole.
    Whole {
        /// What is missing of the field.
        bytes: Bytes,
        /// The node that follows it.
        next: u16,
    },
}

// What is missing after an atom of a text that begins with it.
pub(crate) fn missing(text: &[u8], atom: &[u8]) -> Bytes
    requires { length text.now ≤ TAIL_LIMIT }
    ensures value { result ≡ missing text.now atom.now }
    ensures short { length result ≤ length text.now }
{
    let mut bytes = Bytes::new();
    if atom.len() < text.len() {
        bytes.append(&text[atom.len()..]);
    }
    bytes
}

// A guide word as it is typed.
pub(crate) fn guide(text: &Name) -> Bytes
    ensures value { result ≡ guide text.now }
    ensures short { length result ≤ TAIL_LIMIT }
{
    let mut bytes = Bytes::new();
    bytes.append(b"(");
    bytes.append(text.as_bytes());
    bytes.append(b")");
    bytes
}

// The rest of the entry at a position, in capitals after capitals, and after a switch that a value follows its colon.
fn entry_outcome(switch: bool, table: &Table, atom: &[u8], position: u16) -> Outcome
    requires { position < length table.now }
    ensures value { result
        ≡ entry_outcome (switch && has_colon table.now position) table.now atom.now position }
    ensures short { IsShort TAIL_LIMIT result }
{
    let entry = table.entry(position);
    let mut bytes = in_case(atom, missing(entry.text.as_bytes(), atom).as_slice());
    if switch && entry.colon {
        bytes.append(b":");
        return Outcome::Piece(bytes);
    }
    Outcome::Whole {
        bytes,
        next: entry.next,
    }
}

// A copy of at most 90 bytes.
fn copied(text: &[u8]) -> Bytes
    requires { length text.now ≤ TAIL_LIMIT }
    ensures value { result ≡ text.now }
    ensures short { length result ≤ TAIL_LIMIT }
{
    Bytes::of(text)
}

// What several entries share, unless one of them has the atom for its text.
fn shared_outcome(has: bool, atom: &[u8], shared: &[u8]) -> Outcome
    requires { length shared.now ≤ TAIL_LIMIT }
    ensures value { result ≡ shared_outcome has atom.now shared.now }
    ensures short { IsShort TAIL_LIMIT result }
{
    if has {
        return Outcome::Nothing;
    }
    Outcome::Part(in_case(atom, shared))
}

// The one entry that the look-up gives, or what several share.
fn look_outcome(switch: bool, table: &Table, atom: &[u8], several: Outcome, found: Look) -> Outcome
    requires within { IsWithin found (length table.now) }
    requires several { IsShort TAIL_LIMIT several }
    ensures value { result ≡ look_outcome switch table.now atom.now several found }
    ensures short { IsShort TAIL_LIMIT result }
{
    match found {
        Look::None => Outcome::Nothing,
        Look::Ambiguous => several,
        Look::Abbrev(position) => entry_outcome(switch, table, atom, position),
        Look::Exact(position) => entry_outcome(switch, table, atom, position),
    }
}

// How a keyword goes on that may be any of its table, or a switch after its slash.
fn whole_outcome(switch: bool, table: &Table, atom: &[u8]) -> Outcome
    ensures value { result ≡ look_outcome switch table.now atom.now
        (shared_outcome (has_text table.now atom.now) atom.now (common table.now atom.now)) (look table.now atom.now) }
    ensures short { IsShort TAIL_LIMIT result }
{
    let several = shared_outcome(table.has_text(atom), atom, table.common(atom).as_bytes());
    look_outcome(switch, table, atom, several, table.look(atom))
}

// How it goes on where a line has each entry once.
fn remaining_outcome(
    grammar: &Grammar,
    fields: &[Option<Field>],
    block: &Block,
    switch: bool,
    table: &Table,
    atom: &[u8],
) -> Outcome
    ensures value { result
        ≡ keyword_outcome switch (remains grammar.now (fields_at fields.now) block.now) table.now atom.now }
    ensures short { IsShort TAIL_LIMIT result }
{
    let has = has_text_among(grammar, fields, block, table, atom);
    let several = shared_outcome(has, atom, common_among(grammar, fields, block, table, atom));
    look_outcome(
        switch,
        table,
        atom,
        several,
        look_among(grammar, fields, block, table, atom),
    )
}

// How a keyword goes on, or a switch after its slash.
#[tactic(auto, using(crate::proofs::Choices::all_remain))]
fn keyword_outcome(
    grammar: &Grammar,
    fields: &[Option<Field>],
    block: &Block,
    switch: bool,
    table: &Table,
    atom: &[u8],
) -> Outcome
    ensures value { result
        ≡ keyword_outcome switch (remains grammar.now (fields_at fields.now) block.now) table.now atom.now }
    ensures short { IsShort TAIL_LIMIT result }
{
    if !block.once {
        return whole_outcome(switch, table, atom);
    }
    remaining_outcome(grammar, fields, block, switch, table, atom)
}

// How a switch goes on.
fn switch_outcome(
    grammar: &Grammar,
    fields: &[Option<Field>],
    block: &Block,
    table: &Table,
    atom: &[u8],
) -> Outcome
    ensures value { result
        ≡ switch_outcome (remains grammar.now (fields_at fields.now) block.now) table.now atom.now }
    ensures short { IsShort TAIL_LIMIT result }
{
    match atom {
        [b'/', atom @ ..] => keyword_outcome(grammar, fields, block, true, table, atom),
        _ => Outcome::Nothing,
    }
}

// The rest of a fixed text that begins with the atom.
fn phrase_outcome(text: &[u8], next: u16, atom: &[u8]) -> Outcome
    requires { length text.now ≤ TAIL_LIMIT }
    ensures value { result ≡ phrase_outcome text.now next atom.now }
    ensures short { IsShort TAIL_LIMIT result }
{
    if !begins_with(text, atom) {
        return Outcome::Nothing;
    }
    Outcome::Whole {
        bytes: missing(text, atom),
        next,
    }
}

// Nothing is missing where the function of the block takes what is typed, once a space follows.
fn plain_outcome<N: Names, R: Rules>(
    grammar: &Grammar,
    block: &Block,
    line: &[u8],
    at: usize,
    names: &N,
    rules: &R,
) -> Outcome
    requires table { has_table grammar.now.tables block.now.function ≡ true }
    requires short { length line.now < LINE_LIMIT }
    requires place { at ≤ length line.now }
    ensures value { result ≡ plain_outcome block.now.next
        (trial (setting grammar.now (N.catalogue names.now) (R.meanings rules.now)) block.now.function
        block.now.flags (drop at line.now ++ 32 ∷ []) at) }
    ensures short { IsShort TAIL_LIMIT result }
{
    let mut text: ArrayVec<u8, TEXT_LIMIT> = ArrayVec::new();
    let _ = text.try_extend_from_slice(line);
    text.push(b' ');
    match try_function(grammar, block, text.as_slice(), at, names, rules) {
        Try::Accept { .. } => Outcome::Whole {
            bytes: Bytes::new(),
            next: block.next,
        },
        Try::Refuse { .. } => Outcome::Nothing,
        Try::More => Outcome::Nothing,
    }
}

// The rest of a token of which something is typed.
fn token_outcome(text: &[u8], next: u16, atom: &[u8]) -> Outcome
    requires { length text.now ≤ TAIL_LIMIT }
    ensures value { result ≡ (if length atom.now == 0 then Outcome.Nothing
        else phrase_outcome text.now next atom.now) }
    ensures short { IsShort TAIL_LIMIT result }
{
    if atom.is_empty() {
        return Outcome::Nothing;
    }
    phrase_outcome(text, next, atom)
}

// What the hook of this id says of what is typed.
fn hook_outcome<R: Rules>(rules: &R, id: u8, next: u16, atom: &[u8], plain: Outcome) -> Outcome
    requires atom { length atom.now ≤ LINE_LIMIT }
    requires plain { IsShort TAIL_LIMIT plain }
    ensures value { result ≡ (if length atom.now == 0 then Outcome.Nothing
        else hook_outcome next plain ((R.meanings rules.now).completion id atom.now)) }
    ensures short { IsShort TAIL_LIMIT result }
{
    if atom.is_empty() {
        return Outcome::Nothing;
    }
    match rules.completion(id, atom) {
        Tail::None => plain,
        Tail::Part(text) => Outcome::Part(copied(text.as_bytes())),
        Tail::Whole(text) => Outcome::Whole {
            bytes: copied(text.as_bytes()),
            next,
        },
    }
}

// What a block asks of a file.
fn request(mode: Mode, kind: FileKind, block: &Block) -> Request
    ensures mode { result.mode ≡ mode }
    ensures kind { result.kind ≡ kind }
    ensures flags { result.flags ≡ block.now.flags }
    ensures next { result.next ≡ block.now.next }
{
    Request {
        mode,
        kind,
        flags: block.flags,
        next: block.next,
    }
}

// How the field of a block goes on, behind these fields, of which the line from a place on is typed.
#[tactic(auto, unfolding(crate::specs::Outcome::outcome))]
pub(crate) fn outcome_of<N: Names, R: Rules>(
    grammar: &Grammar,
    fields: &[Option<Field>],
    block: &Block,
    line: &[u8],
    at: usize,
    names: &N,
    rules: &R,
    mode: Mode,
) -> Outcome
    requires well { IsWellBlock grammar.now block.now }
    requires short { length line.now < LINE_LIMIT }
    requires place { at ≤ length line.now }
    ensures value { result ≡ outcome (setting grammar.now (N.catalogue names.now) (R.meanings rules.now))
        (fields_at fields.now) mode block.now (drop at line.now) at }
    ensures short { IsShort TAIL_LIMIT result }
{
    let atom = &line[at..];
    let next = block.next;
    match &block.function {
        Function::Key(table) => {
            keyword_outcome(grammar, fields, block, false, grammar.table(*table), atom)
        }
        Function::Switch(table) => {
            switch_outcome(grammar, fields, block, grammar.table(*table), atom)
        }
        Function::Noise(text) => phrase_outcome(guide(text).as_slice(), next, atom),
        Function::Token(text) => token_outcome(text.as_bytes(), next, atom),
        Function::User => user_outcome(names, next, atom),
        Function::Directory => {
            let plain = plain_outcome(grammar, block, line, at, names, rules);
            directory_outcome(names, block.flags.new, next, atom, plain)
        }
        Function::InFile => {
            let plain = plain_outcome(grammar, block, line, at, names, rules);
            file_outcome(request(mode, FileKind::In, block), names, atom, plain)
        }
        Function::AnyFile => {
            let plain = plain_outcome(grammar, block, line, at, names, rules);
            file_outcome(request(mode, FileKind::Any, block), names, atom, plain)
        }
        Function::Hook(id) => {
            let plain = plain_outcome(grammar, block, line, at, names, rules);
            hook_outcome(rules, *id, next, atom, plain)
        }
        _ => plain_outcome(grammar, block, line, at, names, rules),
    }
}
