// Numbers and words, each a run of word bytes, and runs of other bytes.
ghost use Rattle.std.specs.Prelude.{◌≡◌, ◌+◌, ◌<◌, ◌≤◌, ◌^◌, drop, length};
ghost use Rattle.std.specs.List.{prefix_len};
ghost use Rattle.cm_text.specs.Bytes.{is_word};
ghost use Rattle.cm_text.specs.ByteSets.{has_byte};
ghost use Rattle.cm_fields.specs.Run.{may_be_field, number, number_of, run_field, run_of, word, word_of};

use crate::digits::{NUMBER_LIMIT, are_digits, value_of};
use crate::trial::{said, span_of};
use crate::{Code, Try, Value};
use cm_text::{ByteSet, JOIN, NAME_LIMIT, TEXT_LIMIT, is_word};

/// How many word bytes the text begins with.
pub fn word_run(rest: &[u8]) -> usize
    ensures value { result ≡ prefix_len is_word rest.now }
    ensures within { result ≤ length rest.now }
{
    rest.iter().take_while(|byte| is_word(**byte)).count()
}

// What a run says as a number.
#[tactic(auto, unfolding(crate::specs::Run::number_of))]
fn number_of(run: &[u8]) -> Result<Value, Code>
    ensures { result ≡ number_of run.now }
{
    if run.is_empty() || !are_digits(run) {
        return Err(Code::BadNumber);
    }
    match value_of(run, NUMBER_LIMIT) {
        Some(value) => Ok(Value::Number(value)),
        None => Err(Code::NumberRange),
    }
}

// What a run says as a word, from this place on.
#[tactic(auto, unfolding(crate::specs::Run::word_of))]
fn word_of(at: usize, run: &[u8]) -> Result<Value, Code>
    requires { at + length run.now < 2 ^ 16 }
    ensures { result ≡ word_of at run.now }
{
    match run.len() {
        0 => Err(Code::NoField),
        size @ 1..=NAME_LIMIT => Ok(Value::Word(span_of(at, size))),
        _ => Err(Code::FieldLong),
    }
}

/// A decimal number (.CMNUM): a run of word bytes that are digits alone. Refused with BadNumber where the
/// run is empty or has another byte, with NumberRange where the number is above 34,359,738,367.
pub fn number(text: &[u8], at: usize) -> Try
    requires short { length text.now ≤ TEXT_LIMIT }
    requires place { at ≤ length text.now }
    ensures { result ≡ number (drop at text.now) at }
{
    let rest = &text[at..];
    let size = word_run(rest);
    if size == rest.len() {
        return Try::More;
    }
    said(at, size, size + 1, number_of(&rest[..size]))
}

/// A word (.CMFLD): a run of 1 to 39 word bytes. Refused with NoField where the run is empty, with
/// FieldLong where it is longer.
pub fn word(text: &[u8], at: usize) -> Try
    requires short { length text.now ≤ TEXT_LIMIT }
    requires place { at ≤ length text.now }
    ensures { result ≡ word (drop at text.now) at }
{
    let rest = &text[at..];
    let size = word_run(rest);
    if size == rest.len() {
        return Try::More;
    }
    said(at, size, size + 1, word_of(at, &rest[..size]))
}

/// Whether a field may have each byte of a set: none is CR, which ends a line, the join byte, which continues it, or
/// `?`, which asks for help.
pub fn may_be_field(set: ByteSet) -> bool
    ensures { result ≡ may_be_field set }
{
    !set.has(b'\r') && !set.has(JOIN) && !set.has(b'?')
}

// How many bytes of a set the text begins with.
fn set_run(set: ByteSet, rest: &[u8]) -> usize
    ensures value { result ≡ prefix_len (has_byte set) rest.now }
    ensures within { result ≤ length rest.now }
{
    rest.iter().take_while(|byte| set.has(**byte)).count()
}

// What a run of any bytes says, from this place on.
#[tactic(auto, unfolding(crate::specs::Run::run_of))]
fn run_of(at: usize, run: &[u8]) -> Result<Value, Code>
    requires { at + length run.now < 2 ^ 16 }
    ensures { result ≡ run_of at run.now }
{
    if run.is_empty() {
        return Err(Code::NoField);
    }
    Ok(Value::Word(span_of(at, run.len())))
}

/// A run of the bytes of a set (.CMFLD with .CMBRK, whose break mask has the other bytes): as many as there are, up to
/// the first that is not in the set. Refused with NoField where there is none.
pub fn run_field(set: ByteSet, text: &[u8], at: usize) -> Try
    requires short { length text.now ≤ TEXT_LIMIT }
    requires place { at ≤ length text.now }
    ensures { result ≡ run_field set (drop at text.now) at }
{
    let rest = &text[at..];
    let size = set_run(set, rest);
    if size == rest.len() {
        return Try::More;
    }
    said(at, size, size + 1, run_of(at, &rest[..size]))
}
