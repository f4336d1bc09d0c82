// A line of an image under way.
// A line is built in the value itself. Each method puts one field, with a clause on the bytes, as join_with_byte
// computes, and one on the room. A goal of room that stays open may be false: add up the bounds first.
ghost use Rattle.std.specs.Prelude.{◌≡◌, ◌+◌, ◌<◌, ◌≤◌, ℕ, List, [], ◌∷◌, ◌++◌, length};
ghost use Rattle.std.specs.Fmt.{decimal, signed_decimal};
ghost use Rattle.std.specs.List.{join_with_byte};
ghost use Rattle.ex_image.specs.Record.{after_text, optional_text};

use arrayvec::ArrayString;
use cm_text::{DIGIT_LIMIT, NAME_LIMIT, Name, decimal_digits};
use std::marker::Model;

// Room for the longest line, that of an entry of the print queue, with each of its fields as long as any may be.
const LINE_ROOM: usize = 400;

// The most bytes of a text or a number, with the space before it.
const FIELD_LIMIT: usize = NAME_LIMIT + 1;

// The most bytes of a file's name, type and generation, with the space and the points before them.
const FILE_FIELD_LIMIT: usize = 3 * FIELD_LIMIT;

/// A line of an image, kept in the value itself. Contracts see its bytes.
#[derive(Drop)]
pub(crate) struct Line {
    text: ArrayString<LINE_ROOM>,
}

impl Model for Line {
    ghost Value = { List ℕ };

    ghost view = { λ line. line.text.bytes };
}

impl Line {
    /// The line that begins with this text.
    pub(crate) fn new(text: &str) -> Line
        requires { length text.now ≤ NAME_LIMIT }
        ensures { result ≡ text.now }
    {
        let mut line = ArrayString::new();
        line.push_str(text);
        Line { text: line }
    }

    // Puts a text after the line.
    fn push(&mut self, text: &str)
        requires short { length text.now ≤ NAME_LIMIT }
        requires room { length self.old + NAME_LIMIT ≤ LINE_ROOM }
        ensures bytes { self.new ≡ self.old ++ text.now }
        ensures len { length self.new ≤ length self.old + NAME_LIMIT }
    {
        self.text.push_str(text);
    }

    // Puts the digits of a number after the line.
    fn push_number(&mut self, number: u64)
        requires { length self.old + DIGIT_LIMIT ≤ LINE_ROOM }
        ensures bytes { self.new ≡ self.old ++ decimal number }
        ensures len { length self.new ≤ length self.old + DIGIT_LIMIT }
    {
        self.text.push_str(decimal_digits(number).as_str());
    }

    /// Puts a space and a text after the line.
    pub(crate) fn field(&mut self, text: &str)
        requires short { length text.now ≤ NAME_LIMIT }
        requires room { length self.old + FIELD_LIMIT ≤ LINE_ROOM }
        ensures bytes { self.new ≡ self.old ++ 32 ∷ text.now }
        ensures len { length self.new ≤ length self.old + FIELD_LIMIT }
    {
        self.text.push(' ');
        self.push(text);
    }

    /// Puts a space and a number after the line.
    pub(crate) fn number(&mut self, number: u64)
        requires { length self.old + FIELD_LIMIT ≤ LINE_ROOM }
        ensures bytes { self.new ≡ self.old ++ 32 ∷ decimal number }
        ensures len { length self.new ≤ length self.old + FIELD_LIMIT }
    {
        self.text.push(' ');
        self.push_number(number);
    }

    /// Puts a space and a number after the line, or a hyphen where there is none.
    pub(crate) fn optional(&mut self, number: Option<u64>)
        requires { length self.old + FIELD_LIMIT ≤ LINE_ROOM }
        ensures bytes { self.new ≡ self.old ++ 32 ∷ optional_text number }
        ensures len { length self.new ≤ length self.old + FIELD_LIMIT }
    {
        match number {
            Some(number) => self.number(number),
            None => self.field("-"),
        }
    }

    // Puts a space and the number of a day after the line.
    fn day(&mut self, day: i32)
        requires { length self.old + FIELD_LIMIT ≤ LINE_ROOM }
        ensures bytes { self.new ≡ self.old ++ 32 ∷ signed_decimal day }
        ensures len { length self.new ≤ length self.old + FIELD_LIMIT }
    {
        self.text.push(' ');
        if day < 0 {
            self.text.push('-');
            self.push_number(u64::from(day.unsigned_abs()));
        } else {
            self.push_number(u64::from(day.unsigned_abs()));
        }
    }

    /// Puts a space and the number of a day after the line, or a hyphen where there is none.
    pub(crate) fn after(&mut self, after: Option<i32>)
        requires { length self.old + FIELD_LIMIT ≤ LINE_ROOM }
        ensures bytes { self.new ≡ self.old ++ 32 ∷ after_text after }
        ensures len { length self.new ≤ length self.old + FIELD_LIMIT }
    {
        match after {
            Some(day) => self.day(day),
            None => self.field("-"),
        }
    }

    /// Puts a space and the name, type and generation of a file after the line.
    pub(crate) fn file(&mut self, name: &Name, kind: &Name, generation: u32)
        requires { length self.old + FILE_FIELD_LIMIT ≤ LINE_ROOM }
        ensures bytes { self.new
            ≡ self.old ++ 32 ∷ join_with_byte 46 (name.now ∷ kind.now ∷ decimal generation ∷ []) }
        ensures len { length self.new ≤ length self.old + FILE_FIELD_LIMIT }
    {
        self.field(name.as_str());
        self.text.push('.');
        self.push(kind.as_str());
        self.text.push('.');
        self.push_number(u64::from(generation));
    }

    /// Ends the line.
    pub(crate) fn end(&mut self)
        requires { length self.old < LINE_ROOM }
        ensures { self.new ≡ self.old ++ 10 ∷ [] }
    {
        self.text.push('\n');
    }

    /// The bytes of the line.
    pub(crate) fn as_bytes(&self) -> &[u8]
        ensures { result.now ≡ self.now }
    {
        self.text.as_str().as_bytes()
    }
}
