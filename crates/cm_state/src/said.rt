// What a field said.
ghost use Rattle.std.specs.Prelude.{◌≡◌, option_copied};
ghost use Rattle.std.specs.Str.{IsAscii};
ghost use Rattle.cm_files.specs.Spec.{part};
ghost use Rattle.cm_state.specs.FieldText.{default_of, node_of, said_in, said_of, span_of};

use cm_blocks::{Field, Grammar, Node};
use cm_fields::{Span, Value};

/// The node whose chain took a field, in the grammar that its line was read by. None where the grammar has no such
/// node.
pub fn node_of<'a>(field: &Field, grammar: &'a Grammar) -> Option<&'a Node>
    ensures { option_copied result ≡ node_of grammar.now field.now }
{
    if field.node() < grammar.nodes() {
        Some(grammar.node(field.node()))
    } else {
        None
    }
}

// The text that stands for a field where the line ends before it.
fn default_of<'a>(field: &Field, grammar: &'a Grammar) -> &'a [u8]
    ensures value { result.now ≡ default_of grammar.now field.now }
    ensures ascii { IsAscii result.now }
{
    grammar.has_no_fault();
    match node_of(field, grammar) {
        Some(node) => match &node.default {
            Some(text) => text.as_bytes(),
            None => b"",
        },
        None => b"",
    }
}

// The text that a field is a part of: the line, or the default of its node.
pub(crate) fn said_of<'a>(field: &Field, text: &'a [u8], grammar: &'a Grammar) -> &'a [u8]
    requires { IsAscii text.now }
    ensures value { result.now ≡ said_of grammar.now text.now field.now }
    ensures ascii { IsAscii result.now }
{
    if field.defaulted() {
        default_of(field, grammar)
    } else {
        text
    }
}

// The bytes of a field in the text that it is a part of.
pub(crate) fn said_in<'a>(whole: &'a [u8], field: &Field) -> &'a [u8]
    requires { IsAscii whole.now }
    ensures value { result.now ≡ said_in whole.now field.now }
    ensures ascii { IsAscii result.now }
{
    if let Some(span) = span_of(field.value()) {
        return part(whole, span);
    }
    if field.defaulted() {
        return whole;
    }
    let start = field.start();
    let end = field.end();
    part(whole, Span { start, end })
}

// The place of a value that is a part of a text.
fn span_of(value: &Value) -> Option<Span>
    ensures { result ≡ span_of value.now }
{
    match value {
        Value::Word(span) => Some(*span),
        Value::Quoted(span) => Some(*span),
        Value::Text(span) => Some(*span),
        Value::NewDirectory(span) => Some(*span),
        _ => None,
    }
}

/// A part of a text. What lies outside the text is left out.
pub fn part(text: &[u8], place: Span) -> &[u8]
    requires { IsAscii text.now }
    ensures value { result.now ≡ part text.now place }
    ensures ascii { IsAscii result.now }
{
    let rest = &text[usize::from(place.start).min(text.len())..];
    &rest[..usize::from(place.end.saturating_sub(place.start)).min(rest.len())]
}
