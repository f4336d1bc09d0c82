// What goes into a line.
ghost use Rattle.std.specs.Prelude.{◌≡◌, ◌+◌, ◌≤◌, ◌<◌, ◌++◌, All, drop, length, slice_get, true};
ghost use Rattle.std.specs.List.{AllByRecursion};
ghost use Rattle.cm_text.specs.Bytes.{is_text};
ghost use Rattle.cm_text.specs.Text.{IsLine};
ghost use Rattle.cm_files.specs.Catalogue.{IsCatalogue};
ghost use Rattle.cm_blocks.specs.Once.{fields_at};
ghost use Rattle.cm_blocks.specs.Setting.{setting};
ghost use Rattle.cm_blocks.specs.Well.{IsWell, IsWellBlock};
ghost use Rattle.cm_recognise.specs.Insertion.{asked, at_block, after, block_put, default_put, first_put, fitted, guide_after, insertion, is_asked, put_in, bell_only};
ghost use Rattle.cm_recognise.specs.Outcome.{IsShort};

use crate::Bytes;
use crate::outcome::{Outcome, TAIL_LIMIT, guide, outcome_of};
use cm_blocks::{Block, Ending, Field, Function, Grammar, Node, Open};
use cm_files::Names;
use cm_hooks::Rules;
use cm_text::LINE_LIMIT;

/// Which key completes.
#[derive(Clone, Copy, Debug, PartialEq, Eq)]
pub enum Mode {
    /// ESC: the whole field.
    Escape,
    /// Control-F: one part of a file name or directory.
    Part,
}

/// What goes into a line, and whether the bell rings.
#[derive(Debug, Drop)]
pub struct Insertion {
    /// The bytes that go in at the end.
    pub bytes: Bytes,
    /// Whether it rings: nothing is certain, or no more than these bytes.
    pub bell: bool,
}

// No bytes, and a bell.
fn bell_only() -> Insertion
    ensures { result ≡ bell_only }
{
    Insertion {
        bytes: Bytes::new(),
        bell: true,
    }
}

// What fits into a line of so many bytes.
fn fitted(size: usize, put: Option<Insertion>) -> Insertion
    requires { size ≤ LINE_LIMIT }
    ensures { result ≡ fitted size put }
{
    match put {
        None => bell_only(),
        Some(insertion) => {
            if size + insertion.bytes.as_slice().len() <= LINE_LIMIT {
                insertion
            } else {
                bell_only()
            }
        }
    }
}

// Appends the guide word that a block reads, and a space.
fn append_guide(function: &Function, bytes: &mut Bytes)
    requires { length bytes.old ≤ TAIL_LIMIT + 1 }
    ensures { bytes.new ≡ bytes.old ++ guide_after function.now }
{
    if let Function::Noise(text) = function {
        bytes.append(guide(text).as_slice());
        bytes.append(b" ");
    }
}

// Appends what is after a field that is whole.
fn append_after(grammar: &Grammar, next: u16, bytes: &mut Bytes)
    requires { length bytes.old ≤ TAIL_LIMIT }
    ensures { bytes.new ≡ bytes.old ++ after grammar.now next }
{
    bytes.append(b" ");
    if next < grammar.nodes() {
        if let Some(block) = grammar.node(next).chain.as_slice().first() {
            append_guide(&block.function, bytes);
        }
    }
}

// What one outcome puts in.
fn put_in(grammar: &Grammar, outcome: Outcome) -> Option<Insertion>
    requires { IsShort TAIL_LIMIT outcome }
    ensures { result ≡ put_in grammar.now outcome }
{
    match outcome {
        Outcome::Nothing => None,
        Outcome::Part(bytes) => {
            if bytes.as_slice().is_empty() {
                None
            } else {
                Some(Insertion { bytes, bell: true })
            }
        }
        Outcome::Piece(bytes) => Some(Insertion { bytes, bell: false }),
        Outcome::Whole { mut bytes, next } => {
            append_after(grammar, next, &mut bytes);
            Some(Insertion { bytes, bell: false })
        }
    }
}

// Whether a key asks a block with this function: control-F asks those that read files that are there, or directories.
fn is_asked(mode: Mode, function: &Function) -> bool
    ensures { result ≡ is_asked mode function.now }
{
    match mode {
        Mode::Escape => true,
        Mode::Part => match function {
            Function::InFile => true,
            Function::AnyFile => true,
            Function::Directory => true,
            _ => false,
        },
    }
}

// What one block puts in.
fn block_put<N: Names, R: Rules>(
    grammar: &Grammar,
    fields: &[Option<Field>],
    block: &Block,
    line: &[u8],
    at: usize,
    names: &N,
    rules: &R,
    mode: Mode,
) -> Option<Insertion>
    requires well { IsWellBlock grammar.now block.now }
    requires short { length line.now < LINE_LIMIT }
    requires place { at ≤ length line.now }
    ensures { result ≡ block_put (setting grammar.now (N.catalogue names.now) (R.meanings rules.now))
        (fields_at fields.now) mode (drop at line.now) at block.now }
{
    if !is_asked(mode, &block.function) {
        return None;
    }
    put_in(
        grammar,
        outcome_of(grammar, fields, block, line, at, names, rules, mode),
    )
}

// The first of these blocks that puts anything in.
fn first_put<N: Names, R: Rules>(
    grammar: &Grammar,
    fields: &[Option<Field>],
    blocks: &[Block],
    line: &[u8],
    at: usize,
    names: &N,
    rules: &R,
    mode: Mode,
) -> Option<Insertion>
    requires well { All (IsWellBlock grammar.now) blocks.now }
    requires short { length line.now < LINE_LIMIT }
    requires place { at ≤ length line.now }
    ensures { result ≡ first_put (setting grammar.now (N.catalogue names.now) (R.meanings rules.now))
        (fields_at fields.now) mode (drop at line.now) at blocks.now }
{
    for block in blocks {
        let put = block_put(grammar, fields, block, line, at, names, rules, mode);
        if put.is_some() {
            return put;
        }
    }
    None
}

// Where nothing is typed, the default of a node and a space.
fn default_put(atom: &[u8], node: &Node) -> Option<Insertion>
    ensures { result ≡ default_put atom.now node.now.default }
{
    match &node.default {
        None => None,
        Some(text) => {
            if !atom.is_empty() {
                return None;
            }
            let mut bytes = Bytes::new();
            bytes.append(text.as_bytes());
            bytes.append(b" ");
            Some(Insertion { bytes, bell: false })
        }
    }
}

// What is put in where the blocks of a node wait from this one on.
fn asked<N: Names, R: Rules>(
    grammar: &Grammar,
    fields: &[Option<Field>],
    node: &Node,
    block: u8,
    line: &[u8],
    at: usize,
    names: &N,
    rules: &R,
    mode: Mode,
) -> Option<Insertion>
    requires well { IsWell grammar.now node.now }
    requires short { length line.now < LINE_LIMIT }
    requires place { at ≤ length line.now }
    ensures { result ≡ asked (setting grammar.now (N.catalogue names.now) (R.meanings rules.now))
        (fields_at fields.now) mode node.now block (drop at line.now) at }
{
    let chain = node.chain.as_slice();
    let blocks = &chain[usize::from(block).min(chain.len())..];
    match mode {
        Mode::Part => first_put(grammar, fields, blocks, line, at, names, rules, Mode::Part),
        Mode::Escape => {
            let put = default_put(&line[at..], node);
            if put.is_some() {
                return put;
            }
            first_put(
                grammar,
                fields,
                blocks,
                line,
                at,
                names,
                rules,
                Mode::Escape,
            )
        }
    }
}

// What is put in at a place of the line.
fn at_block<N: Names, R: Rules>(
    grammar: &Grammar,
    fields: &[Option<Field>],
    place: Open,
    line: &[u8],
    names: &N,
    rules: &R,
    mode: Mode,
) -> Option<Insertion>
    requires short { length line.now < LINE_LIMIT }
    requires place { place.at ≤ length line.now }
    ensures { result ≡ at_block (setting grammar.now (N.catalogue names.now) (R.meanings rules.now))
        (fields_at fields.now) mode line.now place.at place.block (slice_get grammar.now.nodes place.node) }
{
    let block = place.block?;
    if place.node >= grammar.nodes() {
        return None;
    }
    let node = grammar.node(place.node);
    asked(
        grammar,
        fields,
        node,
        block,
        line,
        usize::from(place.at),
        names,
        rules,
        mode,
    )
}

// What is put into a line whose parse ends so.
#[tactic(auto, unfolding(crate::specs::Insertion::insertion))]
fn inserted<N: Names, R: Rules>(
    grammar: &Grammar,
    fields: &[Option<Field>],
    ending: Ending,
    line: &[u8],
    names: &N,
    rules: &R,
    mode: Mode,
) -> Insertion
    requires line { length line.now ≤ LINE_LIMIT }
    ensures { result ≡ insertion (setting grammar.now (N.catalogue names.now) (R.meanings rules.now))
        (fields_at fields.now) ending line.now mode }
{
    match ending {
        Ending::Open(place) if line.len() < LINE_LIMIT && usize::from(place.at) <= line.len() => {
            fitted(
                line.len(),
                at_block(grammar, fields, place, line, names, rules, mode),
            )
        }
        _ => bell_only(),
    }
}

// A catalogue has its form.
fn is_catalogue<N: Names>(names: &N)
    ensures { IsCatalogue (N.catalogue names.now) }
{
    let _count = names.directories();
}

/// What ESC or control-F puts into a line whose parse has these fields and ends so (COMND's recognition). A place that
/// has no field says nothing.
///
/// Where the line is open at a field of which nothing is typed, ESC takes the default of its node. Else the blocks that
/// wait are asked in order, and the first that can go on counts: with bytes that are whole, after which a space
/// follows and the guide word of the next node; with the beginning that several ways share, which rings; or with a
/// piece, as a switch up to its colon. Control-F asks the blocks that read files and directories alone, and completes
/// a name or a type of a file up to its point. It rings, and nothing goes in, where no block can go on, where the line
/// is not open at a block, and where the bytes do not fit.
///
/// An option that the line already has, of a block that takes each once, is none of the ways in which a keyword or a
/// switch goes on.
pub fn complete<N: Names, R: Rules>(
    grammar: &Grammar,
    fields: &[Option<Field>],
    ending: Ending,
    line: &[u8],
    names: &N,
    rules: &R,
    mode: Mode,
) -> Insertion
    requires line { IsLine line.now }
    // [completion]
    ensures value { result
        ≡ insertion (setting grammar.now (N.catalogue names.now) (R.meanings rules.now)) (fields_at fields.now) ending
        line.now mode }
    // They may be typed, and with them it is a line again.
    ensures text { AllByRecursion (λ byte. is_text byte ≡ true) result.bytes }
    ensures line { IsLine (line.now ++ result.bytes) }
{
    grammar.has_no_fault();
    grammar.has_tables();
    is_catalogue(names);
    rules.are_lawful();
    inserted(grammar, fields, ending, line, names, rules, mode)
}
