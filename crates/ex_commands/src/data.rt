// A file that is typed in.
ghost use Rattle.std.specs.Prelude.{◌≡◌, ◌+◌, ◌-◌, ◌≤◌, [], length, slice_get, vec_capacity, IfOk};
ghost use Rattle.cm_io.specs.Fault.{PutCause};
ghost use Rattle.cm_io.specs.Contents.{Adds};
ghost use Rattle.ex_generations.specs.declared.file.TheConstants.{FILE_LIMIT};
ghost use Rattle.cm_io.specs.Writer.{Writes};
ghost use Rattle.ex_commands.specs.FileTyping.{adding, bytes_after, bytes_by, echo_of, echo_text, rubbing, size_of, turn_of};

use cm_io::{NoMemory, Put, Sink, Writer};
use cm_text::{bell, control_c, end_of_line, rubout, screen_byte};
use ex_generations::FILE_LIMIT;
use std::alloc::Global;
use std::marker::Model;

// Control-C, which drops what was typed.
const CONTROL_C: u8 = 3;

// Control-Z, which writes the file.
const CONTROL_Z: u8 = 26;

// DEL, which takes the last byte away.
const DELETE: u8 = 127;

/// A file that is typed in: its bytes so far, in memory that is reserved for as many as a file may have. Contracts see
/// the bytes.
#[derive(Drop)]
pub struct Data {
    bytes: Vec<u8>,
}

impl Model for Data {
    ghost use Rattle.std.specs.Prelude.{◌≤◌, ℕ, List, length, vec_capacity};
    ghost use Rattle.ex_generations.specs.declared.file.TheConstants.{FILE_LIMIT};

    ghost Value = { List ℕ };

    ghost view = { λ it. it.bytes.items };

    ghost invariant = { λ it. (length it.bytes.items ≤ FILE_LIMIT) × (FILE_LIMIT ≤ vec_capacity it.bytes) };
}

/// The outcome of a key while a file is typed in.
#[derive(Clone, Copy, Debug, PartialEq, Eq)]
pub enum DataTurn {
    /// The typing goes on.
    More,
    /// Control-Z: the file is to be written.
    Write,
    /// Control-C: what was typed is dropped.
    Dropped,
}

/// What is shown for a key.
#[derive(Clone, Copy)]
pub(crate) enum Echo {
    /// The byte, TAB as a space.
    Byte(u8),
    /// The end of a line.
    Line,
    /// The bell.
    Bell,
    /// Back over the last byte.
    Rubout,
    /// That the file is to be written.
    Written,
    /// That what was typed is dropped.
    Dropped,
}

impl Data {
    /// Nothing typed yet, with memory for as many bytes as a file may have.
    pub fn new(alloc: Global) -> Result<Data, NoMemory>
        ensures { IfOk result (λ typed. typed ≡ []) }
    {
        Ok(Data {
            bytes: Vec::with_capacity(alloc, FILE_LIMIT)?,
        })
    }

    /// The bytes so far.
    pub fn bytes(&self) -> &[u8]
        ensures { result.now ≡ self.now }
    {
        &self.bytes
    }

    // The bytes, in the memory that holds them.
    pub(crate) fn into_vec(self) -> Vec<u8>
        ensures { result.items ≡ self }
    {
        self.bytes
    }

    /// Puts what a key shows, and does nothing yet. A key that has no effect rings the bell.
    #[tactic(auto, using(cm_io::proofs::Writers::finish_puts))]
    pub fn echo<S: Sink>(&self, key: u8, sink: &mut S) -> Put
        ensures bytes { Adds (S.contents sink.old) (S.contents sink.new) (echo_text (echo_of self.now key)) result }
        ensures later { S.faults sink.old ≤ S.faults sink.new }
        ensures cause { PutCause (S.faults sink.old) (S.faults sink.new) result }
    {
        let mut out = Writer::new(sink);
        put_echo(echo_of(&self.bytes, key), &mut out);
        out.finish()
    }

    /// Takes one key. A text byte or TAB is put in, CR or LF puts in CR and LF; what has no room in a file puts nothing
    /// in. DEL takes the last byte away, but no end of a line.
    ///
    /// The answer is Write exactly at control-Z and Dropped exactly at control-C, after which there is nothing any
    /// more; every other key has no effect.
    pub fn take(&mut self, key: u8) -> DataTurn
        ensures bytes { self.new ≡ bytes_after self.old key }
        ensures turn { result ≡ turn_of (echo_of self.old key) }
    {
        let echo = echo_of(&self.bytes, key);
        put_in(&mut self.bytes, echo);
        turn_of(echo)
    }
}

// The key, where a file has room for what it puts in.
fn add(bytes: &[u8], echo: Echo) -> Echo
    requires { length bytes.now ≤ FILE_LIMIT }
    ensures echo { result ≡ adding bytes.now echo }
    ensures room { length bytes.now + size_of result ≤ FILE_LIMIT }
{
    if bytes.len() + size_of(echo) > FILE_LIMIT {
        return Echo::Bell;
    }
    echo
}

// How many bytes a key puts in.
fn size_of(echo: Echo) -> usize
    ensures size { result ≡ size_of echo }
    ensures small { result ≤ 2 }
{
    match echo {
        Echo::Byte(_) => 1,
        Echo::Line => 2,
        Echo::Bell => 0,
        Echo::Rubout => 0,
        Echo::Written => 0,
        Echo::Dropped => 0,
    }
}

// What DEL does: the last byte goes, but no end of a line does.
fn rub(bytes: &[u8]) -> Echo
    ensures echo { result ≡ rubbing (slice_get bytes.now (length bytes.now - 1)) }
    ensures size { size_of result ≡ 0 }
{
    match bytes.last() {
        None | Some(&b'\n') => Echo::Bell,
        Some(_) => Echo::Rubout,
    }
}

// What is shown for a key.
#[tactic(auto, unfolding(crate::specs::FileTyping::echo_of))]
fn echo_of(bytes: &[u8], key: u8) -> Echo
    requires { length bytes.now ≤ FILE_LIMIT }
    ensures echo { result ≡ echo_of bytes.now key }
    ensures room { length bytes.now + size_of result ≤ FILE_LIMIT }
{
    match key {
        b'\t' | b' '..=b'~' => add(bytes, Echo::Byte(key)),
        b'\r' | b'\n' => add(bytes, Echo::Line),
        DELETE => rub(bytes),
        CONTROL_Z => Echo::Written,
        CONTROL_C => Echo::Dropped,
        _ => Echo::Bell,
    }
}

// Does to the bytes what a key does that is shown so.
fn put_in(bytes: &mut Vec<u8>, echo: Echo)
    requires short { length bytes.old.items ≤ FILE_LIMIT }
    requires fits { length bytes.old.items + size_of echo ≤ FILE_LIMIT }
    requires room { FILE_LIMIT ≤ vec_capacity bytes.old }
    ensures bytes { bytes.new.items ≡ bytes_by bytes.old.items echo }
    ensures short { length bytes.new.items ≤ FILE_LIMIT }
    ensures room { FILE_LIMIT ≤ vec_capacity bytes.new }
{
    match echo {
        Echo::Byte(byte) => {
            let _ = bytes.push(byte);
        }
        Echo::Line => {
            let _ = bytes.extend_from_slice(b"\r\n");
        }
        Echo::Rubout => {
            bytes.pop();
        }
        Echo::Dropped => bytes.clear(),
        Echo::Bell => {}
        Echo::Written => {}
    }
}

// Puts what is shown for a key.
#[tactic(auto, unfolding(crate::specs::FileTyping::echo_text))]
fn put_echo<S: Sink>(echo: Echo, out: &mut Writer<'_, S>)
    ensures { Writes S.Sink out.old out.new (echo_text echo) }
{
    match echo {
        Echo::Byte(byte) => out.put(&[screen_byte(byte)]),
        Echo::Line => out.put(end_of_line()),
        Echo::Bell => out.put(bell()),
        Echo::Rubout => out.put(rubout()),
        Echo::Written => out.put_line(b"^Z"),
        Echo::Dropped => out.put_line(control_c()),
    }
}

// The outcome of a key that is shown so.
fn turn_of(echo: Echo) -> DataTurn
    ensures { result ≡ turn_of echo }
{
    match echo {
        Echo::Byte(_) => DataTurn::More,
        Echo::Line => DataTurn::More,
        Echo::Bell => DataTurn::More,
        Echo::Rubout => DataTurn::More,
        Echo::Written => DataTurn::Write,
        Echo::Dropped => DataTurn::Dropped,
    }
}
