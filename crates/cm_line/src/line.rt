// The line that is edited.
ghost use Rattle.std.specs.Prelude.{◌≡◌, ◌+◌, ◌-◌, ◌<◌, ◌≤◌, ◌↔◌, ℕ, true, List, [], ◌∷◌, ◌++◌, length, take, IsTrue, IfSome, IfNone};
ghost use Rattle.std.specs.Bool.{OnTrue, OnFalse};
ghost use Rattle.std.specs.List.{AllByRecursion, suffix_len};
ghost use Rattle.std.specs.Str.{IsAscii};
ghost use Rattle.cm_text.specs.Bytes.{is_blank, is_line_byte, is_text, is_word};
ghost use Rattle.cm_text.specs.Text.{IsLine, ends_in_hyphen, finished, joined};
ghost use Rattle.cm_text.specs.declared.text.TheConstants.{JOIN};
ghost use Rattle.cm_line.specs.FinishedLine.{line_of};
ghost use Rattle.cm_line.specs.Keys.{class_at};
ghost use Rattle.cm_line.specs.Word.{unblanked, without_word, word_start};

use crate::KeyClass;
use arrayvec::ArrayVec;
use cm_text::{JOIN, LINE_LIMIT, TEXT_LIMIT, ends_in_hyphen};
use std::marker::Model;

/// A line under edit: at most 255 bytes, each a text byte or the join byte. Contracts see these bytes. After them it
/// holds the carriage return that would finish it, so that the finished text is there without a copy.
#[derive(Debug, Drop)]
pub struct Line {
    text: ArrayVec<u8, TEXT_LIMIT>,
}

impl Model for Line {
    ghost Value = { List ℕ };

    ghost view = { λ line. line_of line.text.items };

    ghost invariant = { λ line. (line.text.items ≡ finished (line_of line.text.items))
        × IsLine (line_of line.text.items) };
}

impl Line {
    /// The empty line.
    pub fn new() -> Line
        ensures { result ≡ [] }
    {
        let mut text = ArrayVec::new();
        text.push(b'\r');
        Line { text }
    }

    /// The bytes of the line.
    pub fn bytes(&self) -> &[u8]
        ensures value { result.now ≡ self.now }
        ensures line { IsLine result.now }
    {
        &self.text[..self.text.len() - 1]
    }

    /// The finished text: the bytes of the line, and a carriage return.
    #[tactic(auto, using(cm_text::proofs::Ascii::finished_is_ascii))]
    pub fn finished(&self) -> &[u8]
        ensures value { result.now ≡ finished self.now }
        ensures ascii { IsAscii result.now }
        ensures short { length result.now ≤ TEXT_LIMIT }
    {
        self.text.as_slice()
    }

    /// The class of a key on this line: CR and LF continue a line that ends in a hyphen.
    #[tactic(auto, unfolding(crate::specs::Keys::class_at))]
    pub fn class(&self, key: u8) -> KeyClass
        ensures value { result ≡ class_at self.now key }
        ensures text { result ≡ KeyClass.Text → is_text key ≡ true }
        ensures join { result ≡ KeyClass.Join → ends_in_hyphen self.now ≡ true }
    {
        let class = KeyClass::of(key);
        if class == KeyClass::End && ends_in_hyphen(self.bytes()) {
            KeyClass::Join
        } else {
            class
        }
    }

    /// Appends a text byte. False where the line has 255 bytes, which then stays as it was.
    pub fn push(&mut self, byte: u8) -> bool
        requires { is_text byte ≡ true }
        ensures fits { IsTrue result ↔ (length self.old < LINE_LIMIT) }
        ensures pushed { OnTrue result (self.new ≡ self.old ++ byte ∷ []) }
        ensures full { OnFalse result (self.new ≡ self.old) }
    {
        if self.text.is_full() {
            return false;
        }
        text_stands(byte);
        self.text.pop();
        self.text.push(byte);
        self.text.push(b'\r');
        true
    }

    /// Removes the last byte. None where the line is empty.
    pub fn pop(&mut self) -> Option<u8>
        ensures last { IfSome result (λ byte. self.old ≡ self.new ++ byte ∷ []) }
        ensures empty { IfNone result (self.old ≡ []) }
        ensures rest { self.new ≡ take (length self.old - 1) self.old }
    {
        self.text.pop();
        let last = self.text.pop();
        self.text.push(b'\r');
        last
    }

    /// Keeps the first `len` bytes.
    pub fn cut(&mut self, len: usize)
        requires { len ≤ length self.old }
        ensures { self.new ≡ take len self.old }
    {
        self.text.truncate(len);
        self.text.push(b'\r');
    }

    /// The length that one control-W leaves: without the blanks at the end, and then without the run of
    /// word bytes at the end, or without one other byte where there is no such run.
    #[tactic(auto, unfolding(crate::specs::Word::word_start))]
    pub fn word_start(&self) -> usize
        ensures value { result ≡ word_start self.now }
        ensures within { result ≤ length self.now }
    {
        without_word(without_blanks(self.bytes()))
    }

    /// Appends text bytes. False where they do not fit into 255 bytes; the line then stays as it was.
    pub fn append(&mut self, bytes: &[u8]) -> bool
        requires { AllByRecursion (λ byte. is_text byte ≡ true) bytes.now }
        ensures fits { IsTrue result ↔ (length self.old + length bytes.now ≤ LINE_LIMIT) }
        ensures appended { OnTrue result (self.new ≡ self.old ++ bytes.now) }
        ensures full { OnFalse result (self.new ≡ self.old) }
    {
        if bytes.len() > self.text.remaining_capacity() {
            return false;
        }
        texts_stand(bytes);
        self.text.pop();
        let _ = self.text.try_extend_from_slice(bytes);
        self.text.push(b'\r');
        true
    }

    /// Continues the line: the join byte is in the place of the hyphen that ends it.
    pub fn join(&mut self)
        requires { ends_in_hyphen self.old ≡ true }
        ensures { self.new ≡ joined self.old }
    {
        join_stands();
        self.text.pop();
        self.text.pop();
        self.text.push(JOIN);
        self.text.push(b'\r');
    }

    /// Puts another line in the place of this one.
    pub fn set(&mut self, line: &[u8])
        requires { IsLine line.now }
        ensures { self.new ≡ line.now }
    {
        self.text.clear();
        let _ = self.text.try_extend_from_slice(line);
        self.text.push(b'\r');
    }
}

// A text byte may be in a line, and so may the join byte: what the invariant of a line wants, said of one byte,
// where the search has it of the whole list. Nothing of these is run.
#[tactic(auto, using(cm_text::proofs::LineBytes::text_in_line))]
fn text_stands(byte: u8)
    requires { is_text byte ≡ true }
    ensures { is_line_byte byte ≡ true }
{}

#[tactic(auto, using(cm_text::proofs::LineBytes::texts_in_line))]
fn texts_stand(bytes: &[u8])
    requires { AllByRecursion (λ byte. is_text byte ≡ true) bytes.now }
    ensures { AllByRecursion (λ byte. is_line_byte byte ≡ true) bytes.now }
{}

#[tactic(auto, using(cm_text::proofs::LineBytes::join_in_line))]
fn join_stands()
    ensures { is_line_byte JOIN ≡ true }
{}

/// Control-W takes at least one byte from a line that is not empty: the length at which it cuts the line
/// is below the line's, so that a prefix of it stays.
pub fn a_word_is_taken()
    ensures { (line : List ℕ) → 0 < length line → word_start line < length line }
{}

// The line without the blanks at its end.
fn without_blanks(line: &[u8]) -> &[u8]
    ensures { result.now ≡ take (unblanked line.now) line.now }
{
    &line[..line.len() - blanks_at_end(line)]
}

// The length of the line without the word at its end, or without one byte where no word ends it.
fn without_word(line: &[u8]) -> usize
    ensures { result ≡ without_word line.now }
{
    match word_at_end(line) {
        0 => line.len().saturating_sub(1),
        word => line.len() - word,
    }
}

fn blanks_at_end(line: &[u8]) -> usize
    ensures value { result ≡ suffix_len is_blank line.now }
    ensures within { result ≤ length line.now }
{
    line.iter()
        .rev()
        .take_while(|byte| cm_text::is_blank(**byte))
        .count()
}

fn word_at_end(line: &[u8]) -> usize
    ensures value { result ≡ suffix_len is_word line.now }
    ensures within { result ≤ length line.now }
{
    line.iter()
        .rev()
        .take_while(|byte| cm_text::is_word(**byte))
        .count()
}
