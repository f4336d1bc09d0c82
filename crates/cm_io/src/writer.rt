// A writer: bytes that are put in pieces are gathered on a page, and a sink is given no more once it has failed.
// A function that puts bytes in pieces is straight-line code over a Writer, with one clause, as Writes S.Sink out.old
// out.new (indent.now ++ text.now ++ end_of_line). It closes with using(cm_io::proofs::Texts::texts). A public call
// that is handed a sink makes Writer::new(sink), calls that function and gives out.finish(); its clauses are Adds of
// what is told, that the faults do not fall, and PutCause, each answered by finish_puts. Writer::new(sink) and two
// puts in one function stay open.
ghost use Rattle.std.specs.Prelude.{◌≡◌, ◌≤◌, ◌+◌, ◌++◌, [], length};
ghost use Rattle.std.specs.Fmt.{decimal};
ghost use Rattle.cm_text.specs.ScreenBytes.{end_of_line};
ghost use Rattle.cm_io.specs.Pieces.{hex, times};
ghost use Rattle.cm_io.specs.Writer.{Begins, Finishes, Writes, outlet};

use crate::page::{PAGE_LIMIT, Page};
use crate::pieces::hex_digits;
use crate::{Put, Sink};
use cm_text::{DIGIT_LIMIT, decimal_digits, end_of_line};

/// Writes on a sink what comes in pieces, gathered in pages of 256 bytes, and nothing more once the sink has failed. So
/// a function that puts several pieces is straight-line code, and `finish` hands on what is held, and tells how all of
/// them went. Who makes a writer finishes it before anything else is asked of the outside.
#[derive(Drop)]
pub struct Writer<'a, S: Sink> {
    sink: &'a mut S,
    held: Page,
    outcome: Put,
}

impl<'a, S: Sink> Writer<'a, S> {
    /// A writer on this sink, which holds nothing.
    pub fn new(sink: &'a mut S) -> Writer<'a, S>
        ensures { Begins S.Sink sink.entry result }
    {
        Writer {
            sink,
            held: Page::new(),
            outcome: Put::Done,
        }
    }

    /// Hands on what is held, and tells how the puts went: Failed where one has failed. A sink that is given nothing is
    /// not asked.
    pub fn finish(&mut self) -> Put
        ensures { Finishes S.Sink self.old self.new result }
    {
        self.hand_on();
        self.outcome
    }

    /// Writes some bytes: full pages go to the sink at once, and the rest is held.
    #[tactic(auto, using(crate::proofs::Texts::texts))]
    pub fn put(&mut self, bytes: &[u8])
        ensures { Writes S.Sink self.old self.new bytes.now }
    {
        let room = self.held.room();
        if bytes.len() <= room {
            return self.hold(bytes);
        }
        let (front, rest) = bytes.split_at(room);
        self.hold(front);
        self.put_after(rest);
    }

    // Gives the sink what is held, if anything is and no put has failed.
    #[tactic(auto, using(crate::proofs::Writers::gives_nothing, crate::proofs::Texts::writes_none))]
    fn hand_on(&mut self)
        ensures writes { Writes S.Sink self.old self.new [] }
        ensures none { self.new.held ≡ [] }
        ensures idle { self.old.held ≡ [] → self.new.outcome ≡ self.old.outcome }
    {
        if self.held.as_slice().is_empty() {
            return;
        }
        if self.outcome == Put::Failed {
            return self.held.clear();
        }
        self.outcome = self.sink.put(self.held.as_slice());
        self.held.clear();
    }

    // Hands on what is held, and writes more bytes.
    #[tactic(auto, using(crate::proofs::Texts::texts))]
    fn put_after(&mut self, bytes: &[u8])
        ensures { Writes S.Sink self.old self.new bytes.now }
    {
        self.finish();
        if bytes.len() < PAGE_LIMIT {
            self.hold(bytes);
        } else {
            self.pass(bytes);
        }
    }

    // Holds bytes, for which there is room.
    fn hold(&mut self, bytes: &[u8])
        requires { length self.old.held + length bytes.now ≤ PAGE_LIMIT }
        ensures { Writes S.Sink self.old self.new bytes.now }
    {
        self.held.put(bytes);
    }

    // Gives the sink bytes, where nothing is held, if no put has failed.
    #[tactic(auto, using(crate::proofs::Writers::gives_nothing))]
    fn pass(&mut self, bytes: &[u8])
        requires { self.old.held ≡ [] }
        ensures { Writes S.Sink self.old self.new bytes.now }
    {
        if self.outcome == Put::Done {
            self.outcome = self.sink.put(bytes);
        }
    }

    /// Writes some bytes and the end of their line, CR and LF.
    #[tactic(auto, using(crate::proofs::Texts::texts))]
    pub fn put_line(&mut self, bytes: &[u8])
        ensures { Writes S.Sink self.old self.new (bytes.now ++ end_of_line) }
    {
        self.put(bytes);
        self.put(end_of_line());
    }

    /// Writes the decimal digits of a number, with no zero before them.
    pub fn put_decimal(&mut self, number: u64)
        ensures { Writes S.Sink self.old self.new (decimal number) }
    {
        if self.held.room() >= DIGIT_LIMIT {
            self.held.put_decimal(number);
            return;
        }
        self.put(decimal_digits(number).as_bytes());
    }

    /// Writes the two hexadecimal digits of a byte, letters in lower case.
    pub fn put_hex(&mut self, byte: u8)
        ensures { Writes S.Sink self.old self.new (hex byte) }
    {
        self.put(&hex_digits(byte));
    }

    /// Writes a piece a number of times.
    #[tactic(auto, using(crate::proofs::Texts::writes_time, crate::proofs::Texts::writes_no_times))]
    pub fn put_times(&mut self, count: u32, piece: &[u8])
        ensures { Writes S.Sink self.old self.new (times count piece.now) }
    {
        for turn in 0..count {
            self.put(piece);
        }
    }
}
