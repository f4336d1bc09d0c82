// A command file that is open.
ghost use Rattle.std.specs.Prelude.{◌≡◌, ◌≤◌, ◌+◌, ◌==◌, ◌∷◌, ◌++◌, None, Some, true, drop, if◌then◌else◌, length, slice_get, vec_capacity, IfOk, IfSome};
ghost use Rattle.std.specs.List.{list_all};
ghost use Rattle.std.specs.Option.{option_copied};
ghost use Rattle.cm_text.specs.Bytes.{is_line_byte};
ghost use Rattle.cm_text.specs.Lines.{lines};
ghost use Rattle.cm_text.specs.Text.{IsLine, ends_in_hyphen, joined};
ghost use Rattle.ex_take.specs.Lines.{file_lines, is_line, joined_after, lines_from, first_is_line, first_line};

use cm_io::NoMemory;
use cm_text::{JOIN, LINE_LIMIT, ends_in_hyphen, first_line, is_line_byte};
use std::alloc::Global;
use std::marker::Model;

/// A command file that is open; none where nothing is left. Contracts see the lines that are left.
#[derive(Drop)]
pub(crate) struct CommandFile {
    reading: Option<Reading>,
}

impl Model for CommandFile {
    ghost use Rattle.std.specs.Prelude.{ℕ, List, []};
    ghost use Rattle.std.specs.Option.{option_map_or};

    ghost Value = { List (List ℕ) };

    ghost view = { λ it. option_map_or (λ (lines : List (List ℕ)). lines) it.reading [] };
}

impl Default for CommandFile {
    fn default() -> CommandFile {
        CommandFile { reading: None }
    }
}

// The bytes of a file, of which each line is read once: the line that is next, whether it can be parsed, and where the
// one after it begins; none where no line is left.
#[derive(Drop)]
struct Reading {
    bytes: Vec<u8>,
    line: Vec<u8>,
    is_parsable: bool,
    next: Option<usize>,
}

impl Model for Reading {
    ghost use Rattle.std.specs.Prelude.{◌≡◌, ◌≤◌, ℕ, List, length, vec_capacity, IfSome};
    ghost use Rattle.ex_take.specs.Lines.{is_line, lines_from};

    ghost Value = { List (List ℕ) };

    ghost view = { λ it. lines_from it.bytes.items it.line.items it.next };

    ghost invariant = { λ it. IfSome it.next (λ next. next ≤ length it.bytes.items)
        × ((length it.bytes.items ≤ vec_capacity it.line) × (is_line it.line.items ≡ it.is_parsable)) };
}

impl Reading {
    // A file with these bytes, of which none is taken.
    fn open(alloc: Global, bytes: &[u8]) -> Result<Reading, NoMemory>
        ensures { IfOk result (λ reading. reading ≡ file_lines bytes.now) }
    {
        let bytes = bytes.to_vec(alloc)?;
        let mut line = Vec::with_capacity(alloc, bytes.len())?;
        let next = read_line(&bytes, 0, &mut line);
        Ok(Reading {
            is_parsable: is_line(&line),
            bytes,
            line,
            next,
        })
    }

    // Whether the next line can be parsed, if one is left.
    fn is_parsable(&self) -> Option<bool>
        ensures { result ≡ first_is_line self.now }
    {
        match self.next {
            Some(_) => Some(self.is_parsable),
            None => None,
        }
    }

    // The next line, if one is left and it can be parsed.
    fn line(&self) -> Option<&[u8]>
        ensures value { option_copied result ≡ first_line self.now }
        ensures line { IfSome (option_copied result) IsLine }
    {
        match self.next {
            Some(_) => line_if(self.is_parsable, &self.line),
            None => None,
        }
    }

    // Passes the next line, and reads the one after it.
    fn pass(&mut self)
        ensures { self.new ≡ drop 1 self.old }
    {
        if let Some(at) = self.next {
            self.next = read_line(&self.bytes, at, &mut self.line);
            self.is_parsable = is_line(&self.line);
        }
    }
}

impl CommandFile {
    /// A file with these bytes, of which none is taken.
    pub(crate) fn open(alloc: Global, bytes: &[u8]) -> Result<CommandFile, NoMemory>
        ensures { IfOk result (λ file. file ≡ file_lines bytes.now) }
    {
        Ok(CommandFile {
            reading: Some(Reading::open(alloc, bytes)?),
        })
    }

    /// Whether the next line can be parsed, if one is left.
    pub(crate) fn is_parsable(&self) -> Option<bool>
        ensures { result ≡ first_is_line self.now }
    {
        match &self.reading {
            Some(reading) => reading.is_parsable(),
            None => None,
        }
    }

    /// The next line, if one is left and it can be parsed.
    pub(crate) fn line(&self) -> Option<&[u8]>
        ensures value { option_copied result ≡ first_line self.now }
        ensures line { IfSome (option_copied result) IsLine }
    {
        match &self.reading {
            Some(reading) => reading.line(),
            None => None,
        }
    }

    /// Whether no line is left.
    pub(crate) fn is_over(&self) -> bool
        ensures { result ≡ length self.now == 0 }
    {
        self.is_parsable().is_none()
    }

    /// Passes the next line.
    pub(crate) fn pass(&mut self)
        ensures { self.new ≡ drop 1 self.old }
    {
        if let Some(reading) = &mut self.reading {
            reading.pass();
        }
    }
}

// Puts a line in the place of another.
fn set(bytes: &[u8], line: &mut Vec<u8>)
    requires room { length bytes.now ≤ vec_capacity line.old }
    ensures line { line.new.items ≡ bytes.now }
    ensures room { vec_capacity line.old ≤ vec_capacity line.new }
{
    line.clear();
    let _ = line.extend_from_slice(bytes);
}

// Continues a line that ends in a hyphen by the next one.
fn join(next: &[u8], line: &mut Vec<u8>)
    requires hyphen { ends_in_hyphen line.old.items ≡ true }
    requires room { length line.old.items + length next.now ≤ vec_capacity line.old }
    ensures line { line.new.items ≡ joined line.old.items ++ next.now }
    ensures room { vec_capacity line.old ≤ vec_capacity line.new }
{
    line.pop();
    let _ = line.push(JOIN);
    let _ = line.extend_from_slice(next);
}

// Continues a line by those that follow it, as long as it ends in a hyphen, and says where the next line begins.
#[tactic(auto, using(crate::proofs::LineLaws::whole_line), unfolding(crate::specs::Lines::file_lines))]
fn join_lines(bytes: &[u8], line: &mut Vec<u8>) -> usize
    requires room { length line.old.items + length bytes.now ≤ vec_capacity line.old }
    ensures lines { joined_after line.old.items (lines bytes.now)
        ≡ line.new.items ∷ file_lines (drop result bytes.now) }
    ensures within { result ≤ length bytes.now }
    ensures room { vec_capacity line.old ≤ vec_capacity line.new }
{
    let mut at = 0;
    while ends_in_hyphen(line) {
        let rest = &bytes[at..];
        match first_line(rest) {
            None => return at,
            Some(first) => {
                join(&rest[..first.end], line);
                at += first.next;
            }
        }
    }
    at
}

// The bytes from a place on.
fn after(bytes: &[u8], at: usize) -> &[u8]
    requires { at ≤ length bytes.now }
    ensures { result.now ≡ drop at bytes.now }
{
    &bytes[at..]
}

// Reads the line that begins at a place, in the place of the one that was read before, and says where the next one
// begins; none where no line is left.
fn read_line(bytes: &[u8], at: usize, line: &mut Vec<u8>) -> Option<usize>
    requires within { at ≤ length bytes.now }
    requires room { length bytes.now ≤ vec_capacity line.old }
    // [joined-line]
    ensures lines { lines_from bytes.now line.new.items result ≡ file_lines (drop at bytes.now) }
    ensures within { IfSome result (λ next. next ≤ length bytes.now) }
    ensures room { vec_capacity line.old ≤ vec_capacity line.new }
{
    let rest = after(bytes, at);
    match first_line(rest) {
        Some(first) => {
            set(&rest[..first.end], line);
            Some(at + first.next + join_lines(after(rest, first.next), line))
        }
        None => None,
    }
}

// A line, where it can be parsed.
#[tactic(auto, using(crate::proofs::LineLaws::line_holds))]
fn line_if(is_parsable: bool, line: &[u8]) -> Option<&[u8]>
    requires { is_line line.now ≡ is_parsable }
    ensures value { option_copied result ≡ (if is_line line.now then Some line.now else None) }
    ensures line { IfSome (option_copied result) IsLine }
{
    if is_parsable { Some(line) } else { None }
}

// Text bytes and join bytes alone.
fn is_plain(line: &[u8]) -> bool
    ensures { result ≡ list_all is_line_byte line.now }
{
    line.iter().all(|byte| is_line_byte(*byte))
}

// Whether a line can be parsed.
fn is_line(line: &[u8]) -> bool
    ensures { result ≡ is_line line.now }
{
    line.len() <= LINE_LIMIT && is_plain(line)
}
