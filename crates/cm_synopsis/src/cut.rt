// The words of a line.
ghost use Rattle.std.specs.Prelude.{◌≡◌, ◌≤◌, IfOk, drop, length, take};
ghost use Rattle.std.specs.List.{prefix_len};
ghost use Rattle.cm_synopsis.specs.Bytes.{is_plain};
ghost use Rattle.cm_synopsis.specs.Words.{is_passed, kinds_size, run_size, size_to, word_size, word_text, words};

use crate::bytes::{ends_in, is_blank, is_plain, is_sign, run_before};
use std::alloc::{AllocError, Global};

/// Where a word of a line is.
#[derive(Clone, Copy, Debug, PartialEq, Eq)]
pub struct Word {
    /// The place of its first byte.
    pub start: usize,
    /// The place after its last byte.
    pub end: usize,
}

// How many bytes there are up to this one, and with it.
fn size_to(last: u8, bytes: &[u8]) -> usize
    ensures value { result ≡ size_to last bytes.now }
    ensures within { result ≤ length bytes.now }
{
    let run = run_before(last, bytes);
    if run < bytes.len() { run + 1 } else { run }
}

// How many plain bytes there are in front.
fn plain_run(bytes: &[u8]) -> usize
    ensures value { result ≡ prefix_len is_plain bytes.now }
    ensures within { result ≤ length bytes.now }
{
    bytes.iter().take_while(|byte| is_plain(**byte)).count()
}

// How many bytes directly behind a colon belong to its word.
fn kinds_size(bytes: &[u8]) -> usize
    ensures value { result ≡ kinds_size bytes.now }
    ensures within { result ≤ length bytes.now }
{
    match bytes.first() {
        Some(&b'[') => size_to(b']', bytes),
        Some(&b'<') => size_to(b'>', bytes),
        _ => 0,
    }
}

// How many bytes a run of plain bytes has with what belongs to it.
fn run_size(run: usize, bytes: &[u8]) -> usize
    requires { run ≤ length bytes.now }
    ensures value { result ≡ run_size run bytes.now }
    ensures within { result ≤ length bytes.now }
{
    let (front, after) = bytes.split_at(run);
    if ends_in(b':', front) {
        return run + kinds_size(after);
    }
    run
}

// How many bytes the word has that begins these bytes.
#[tactic(auto, unfolding(crate::specs::Words::word_size))]
pub(crate) fn word_size(bytes: &[u8]) -> usize
    ensures value { result ≡ word_size bytes.now }
    ensures within { result ≤ length bytes.now }
{
    match bytes.first() {
        None => 0,
        Some(&b'(') => size_to(b')', bytes),
        Some(&byte) if is_sign(byte) => 1,
        Some(_) => run_size(plain_run(bytes), bytes),
    }
}

// Whether no word begins at a place, where the word before ends at the next.
pub(crate) fn is_passed(place: usize, next: usize, byte: u8) -> bool
    ensures { result ≡ is_passed place next byte }
{
    place < next || is_blank(byte)
}

// What is behind so many bytes: nothing where there are not so many.
pub(crate) fn rest_of(line: &[u8], place: usize) -> &[u8]
    ensures { result.now ≡ drop place line.now }
{
    if place < line.len() {
        line.split_at(place).1
    } else {
        &[]
    }
}

// So many bytes, or all where there are not so many.
fn front_of(line: &[u8], size: usize) -> &[u8]
    ensures { result.now ≡ take size line.now }
{
    if size < line.len() {
        line.split_at(size).0
    } else {
        line
    }
}

// The bytes of a word.
pub(crate) fn word_text(line: &[u8], word: Word) -> &[u8]
    ensures { result.now ≡ word_text line.now word }
{
    front_of(
        rest_of(line, word.start),
        word.end.saturating_sub(word.start),
    )
}

/// The words of a line, in order. A blank is a space, TAB or carriage return, and parts words. A sign, one of
/// `[ ] < > { } |`, is a word; so is all from `(` to the next `)`, and any run of other bytes. Where such a run ends in
/// a colon, a class from `[` to the next `]` directly behind it belongs to it, and kinds from `<` to the next `>`.
#[tactic(auto, unfolding(crate::specs::Words::words))]
pub fn words(alloc: Global, line: &[u8]) -> Result<Vec<Word>, AllocError>
    ensures { IfOk result (λ made. made.items ≡ words line.now) }
{
    let mut made = Vec::new(alloc);
    let mut next = 0;
    for at in 0..line.len() {
        if is_passed(at, next, line[at]) {
            continue;
        }
        next = at + word_size(line.split_at(at).1);
        made.push(Word {
            start: at,
            end: next,
        })?;
    }
    Ok(made)
}
