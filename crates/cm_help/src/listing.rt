// What `?` shows of a line.
#![tactic(auto, using(cm_io::proofs::Texts::texts))]

ghost use Rattle.std.specs.Prelude.{◌≡◌, ◌≤◌, ◌++◌, All, [], drop, length, map, slice_get, true, false};
ghost use Rattle.std.specs.List.{flat_map};
ghost use Rattle.cm_text.specs.declared.text.TheConstants.{LINE_LIMIT};
ghost use Rattle.cm_io.specs.Contents.{Adds};
ghost use Rattle.cm_io.specs.Fault.{PutCause};
ghost use Rattle.cm_io.specs.Writer.{Writes};
ghost use Rattle.cm_fields.specs.Code.{code_text};
ghost use Rattle.cm_blocks.specs.Once.{fields_at};
ghost use Rattle.cm_blocks.specs.Setting.{setting};
ghost use Rattle.cm_blocks.specs.Trial.{trial};
ghost use Rattle.cm_blocks.specs.Well.{IsWell, IsWellBlock};
ghost use Rattle.cm_help.specs.Phrase.{phrase};
ghost use Rattle.cm_help.specs.Help.{after_guide, at_place, comment, help_text, is_guide, lead, listing, node_phrases, phrases, possible, refuses, waiting};

use crate::phrase::put_phrase;
use cm_blocks::{Block, Ending, Field, Function, Grammar, Node, Open, try_function};
use cm_fields::{Code, Try};
use cm_files::Names;
use cm_hooks::Rules;
use cm_io::{Put, Sink, Writer};
use cm_text::{LINE_LIMIT, end_of_line};

#[tactic(auto, unfolding(crate::specs::Help::comment))]
fn comment() -> &'static [u8]
    ensures { result.now ≡ comment }
{
    b" comment"
}

// Puts what is before a phrase.
#[tactic(auto, using(cm_io::proofs::Texts::texts), unfolding(crate::specs::Help::lead))]
fn put_lead<S: Sink>(first: bool, out: &mut Writer<'_, S>)
    ensures { Writes S.Sink out.old out.new (lead first) }
{
    if first {
        out.put(b" ");
    } else {
        out.put(end_of_line());
        out.put(b" or ");
    }
}

// Puts one phrase of a list.
fn put_item<R: Rules, S: Sink>(
    first: bool,
    grammar: &Grammar,
    fields: &[Option<Field>],
    block: &Block,
    atom: &[u8],
    rules: &R,
    out: &mut Writer<'_, S>,
)
    requires well { IsWellBlock grammar.now block.now }
    ensures { Writes S.Sink out.old out.new
        (lead first ++ phrase grammar.now (R.meanings rules.now) (fields_at fields.now) atom.now block.now) }
{
    put_lead(first, out);
    put_phrase(grammar, fields, block, atom, rules, out);
}

// Puts the phrases of these blocks, of which nothing is typed, after others.
#[tactic(auto, using(cm_io::proofs::Texts::turns))]
fn put_untouched<R: Rules, S: Sink>(
    grammar: &Grammar,
    fields: &[Option<Field>],
    blocks: &[Block],
    rules: &R,
    out: &mut Writer<'_, S>,
)
    requires well { All (IsWellBlock grammar.now) blocks.now }
    ensures { Writes S.Sink out.old out.new
        (listing false (map (phrase grammar.now (R.meanings rules.now) (fields_at fields.now) []) blocks.now)) }
{
    for block in blocks {
        put_item(false, grammar, fields, block, b"", rules, out);
    }
}

// Puts the phrases of all blocks of a node, of which nothing is typed, after others.
fn put_node<R: Rules, S: Sink>(
    grammar: &Grammar,
    fields: &[Option<Field>],
    number: u16,
    rules: &R,
    out: &mut Writer<'_, S>,
)
    ensures { Writes S.Sink out.old out.new
        (listing false
        (node_phrases grammar.now (R.meanings rules.now) (fields_at fields.now) (slice_get grammar.now.nodes number))) }
{
    if number >= grammar.nodes() {
        return;
    }
    put_untouched(
        grammar,
        fields,
        grammar.node(number).chain.as_slice(),
        rules,
        out,
    );
}

fn is_guide(function: &Function) -> bool
    ensures { result ≡ is_guide function.now }
{
    matches!(function, Function::Noise(_))
}

// Puts the phrases after a guide word of which nothing is typed.
#[tactic(auto, using(cm_io::proofs::Texts::writes_none))]
fn put_after_guide<R: Rules, S: Sink>(
    grammar: &Grammar,
    fields: &[Option<Field>],
    block: &Block,
    atom: &[u8],
    rules: &R,
    out: &mut Writer<'_, S>,
)
    ensures { Writes S.Sink out.old out.new
        (listing false (after_guide grammar.now (R.meanings rules.now) (fields_at fields.now) block.now atom.now)) }
{
    if is_guide(&block.function) && atom.is_empty() {
        put_node(grammar, fields, block.next, rules, out);
    }
}

// Puts the phrases that a block gives.
fn put_phrases<R: Rules, S: Sink>(
    first: bool,
    grammar: &Grammar,
    fields: &[Option<Field>],
    block: &Block,
    atom: &[u8],
    rules: &R,
    out: &mut Writer<'_, S>,
)
    requires well { IsWellBlock grammar.now block.now }
    ensures { Writes S.Sink out.old out.new
        (listing first (phrases grammar.now (R.meanings rules.now) (fields_at fields.now) atom.now block.now)) }
{
    put_item(first, grammar, fields, block, atom, rules, out);
    put_after_guide(grammar, fields, block, atom, rules, out);
}

// Whether the function of a block refuses the line from a place on.
fn refuses<N: Names, R: Rules>(
    grammar: &Grammar,
    block: &Block,
    line: &[u8],
    at: usize,
    names: &N,
    rules: &R,
) -> bool
    requires well { IsWellBlock grammar.now block.now }
    requires short { length line.now ≤ LINE_LIMIT }
    requires place { at ≤ length line.now }
    ensures { result ≡ refuses (trial (setting grammar.now (N.catalogue names.now) (R.meanings rules.now))
        block.now.function block.now.flags (drop at line.now) at) }
{
    match try_function(grammar, block, line, at, names, rules) {
        Try::Refuse { .. } => true,
        Try::Accept { .. } | Try::More => false,
    }
}

// Puts the phrases of those of these blocks that do not refuse the line from a place on.
#[tactic(auto, using(cm_io::proofs::Texts::turns))]
fn put_possible<N: Names, R: Rules, S: Sink>(
    grammar: &Grammar,
    fields: &[Option<Field>],
    blocks: &[Block],
    line: &[u8],
    at: usize,
    names: &N,
    rules: &R,
    out: &mut Writer<'_, S>,
)
    requires well { All (IsWellBlock grammar.now) blocks.now }
    requires short { length line.now ≤ LINE_LIMIT }
    requires place { at ≤ length line.now }
    ensures { Writes S.Sink out.old out.new
        (listing true (flat_map (phrases grammar.now (R.meanings rules.now) (fields_at fields.now) (drop at line.now))
        (possible (setting grammar.now (N.catalogue names.now) (R.meanings rules.now)) (drop at line.now) at
        blocks.now))) }
{
    let atom = line.split_at(at).1;
    let mut first = true;
    for block in blocks {
        if refuses(grammar, block, line, at, names, rules) {
            continue;
        }
        put_phrases(first, grammar, fields, block, atom, rules, out);
        first = false;
    }
}

// Puts what may come where the blocks of a node wait from this one on.
fn put_waiting<N: Names, R: Rules, S: Sink>(
    grammar: &Grammar,
    fields: &[Option<Field>],
    node: &Node,
    block: u8,
    line: &[u8],
    at: usize,
    names: &N,
    rules: &R,
    out: &mut Writer<'_, S>,
)
    requires well { IsWell grammar.now node.now }
    requires short { length line.now ≤ LINE_LIMIT }
    requires place { at ≤ length line.now }
    ensures { Writes S.Sink out.old out.new
        (waiting (setting grammar.now (N.catalogue names.now) (R.meanings rules.now)) (fields_at fields.now)
        node.now block (drop at line.now) at) }
{
    let chain = node.chain.as_slice();
    let first = usize::from(block).min(chain.len());
    put_possible(
        grammar,
        fields,
        &chain[first..],
        line,
        at,
        names,
        rules,
        out,
    );
}

// Puts what may come at a place of the line.
fn put_place<N: Names, R: Rules, S: Sink>(
    grammar: &Grammar,
    fields: &[Option<Field>],
    place: Open,
    line: &[u8],
    names: &N,
    rules: &R,
    out: &mut Writer<'_, S>,
)
    requires short { length line.now ≤ LINE_LIMIT }
    requires place { place.at ≤ length line.now }
    ensures { Writes S.Sink out.old out.new
        (at_place (setting grammar.now (N.catalogue names.now) (R.meanings rules.now)) (fields_at fields.now)
        line.now place.at place.block (slice_get grammar.now.nodes place.node)) }
{
    let Some(block) = place.block else {
        out.put(comment());
        return;
    };
    if place.node >= grammar.nodes() {
        return;
    }
    let node = grammar.node(place.node);
    let at = usize::from(place.at);
    put_waiting(grammar, fields, node, block, line, at, names, rules, out);
}

// Puts why a line is refused.
fn put_refusal<S: Sink>(code: Code, out: &mut Writer<'_, S>)
    ensures { Writes S.Sink out.old out.new (lead true ++ code_text code) }
{
    put_lead(true, out);
    out.put(code.text().as_bytes());
}

/// Puts what `?` shows of a line that has these fields and whose parse ends so (COMND's help).
///
/// Where the line is open at a field, that is a list of what the blocks that wait may read, each in its own words: the
/// first after a space, each further one on a line of its own. A block that refuses what is typed is not among them,
/// a keyword table lists its plain entries that go on from what is typed, without the options that one of the fields
/// is already (`may_come`), and after a guide word of which nothing is typed stand all blocks of the node that follows
/// it. A place that has no field says nothing. Where the line is refused, it is the reason; in a comment
/// that is not ended, that it is one. Where the ending is none of the line, it is nothing.
///
/// The answer is Failed only where the sink failed.
#[tactic(auto, using(cm_io::proofs::Writers::finish_puts))]
pub fn help<N: Names, R: Rules, S: Sink>(
    grammar: &Grammar,
    fields: &[Option<Field>],
    ending: Ending,
    line: &[u8],
    names: &N,
    rules: &R,
    sink: &mut S,
) -> Put
    requires line { length line.now ≤ LINE_LIMIT }
    // [question-mark]
    ensures bytes { Adds (S.contents sink.old) (S.contents sink.new)
        (help_text (setting grammar.now (N.catalogue names.now) (R.meanings rules.now)) (fields_at fields.now) ending
        line.now) result }
    ensures later { S.faults sink.old ≤ S.faults sink.new }
    ensures cause { PutCause (S.faults sink.old) (S.faults sink.new) result }
{
    let mut out = Writer::new(sink);
    put_help(grammar, fields, ending, line, names, rules, &mut out);
    out.finish()
}

/// The same where more is written: puts on a writer what `help` puts on a sink.
#[tactic(auto, using(cm_io::proofs::Texts::writes_none), unfolding(crate::specs::Help::help_text))]
pub fn put_help<N: Names, R: Rules, S: Sink>(
    grammar: &Grammar,
    fields: &[Option<Field>],
    ending: Ending,
    line: &[u8],
    names: &N,
    rules: &R,
    out: &mut Writer<'_, S>,
)
    requires line { length line.now ≤ LINE_LIMIT }
    ensures { Writes S.Sink out.old out.new
        (help_text (setting grammar.now (N.catalogue names.now) (R.meanings rules.now)) (fields_at fields.now) ending
        line.now) }
{
    match ending {
        Ending::Open(place) if usize::from(place.at) <= line.len() => {
            put_place(grammar, fields, place, line, names, rules, out);
        }
        Ending::Fault(fault) => put_refusal(fault.code, out),
        Ending::Open(_) | Ending::Done => {}
    }
}
