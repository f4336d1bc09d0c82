// The run of `tt20`.
ghost use Rattle.std.specs.Prelude.{◌≡◌, ◌≤◌, ◌++◌, IsTrue};
ghost use Rattle.cm_text.specs.ScreenBytes.{end_of_line};
ghost use Rattle.cm_io.specs.Fault.{PutCause};
ghost use Rattle.cm_io.specs.Contents.{Adds};
ghost use Rattle.cm_io.specs.Writer.{Writes};
ghost use Rattle.tt_screen.specs.End.{Asks, Complains, EndCause, Feeds, PutsRows, ReadAsks, ReadCause, Reads, Tries, message_of};
ghost use Rattle.tt_screen.specs.Grid.{blank_grid};
ghost use Rattle.tt_screen.specs.KeptRows.{kept_of};
ghost use Rattle.tt_screen.specs.ScreenText.{row_line, rows_text};

use crate::{Row, Screen, Status};
use cm_io::{Got, Put, Sink, Source, Writer, put_line};

/// The most bytes that a run takes.
pub const KEY_LIMIT: u32 = 16_777_216;

/// How reading the bytes ended.
#[derive(Clone, Copy)]
pub enum Read {
    /// None is left.
    All,
    /// The source failed.
    Failed,
    /// As many were taken as a run takes.
    TooMany,
}

/// Feeds all bytes to a blank screen, and then shows each row that is kept, without the spaces at its end, as a line.
/// Where the bytes cannot be read to their end it shows a message and no rows. It takes no memory.
pub fn tt20<K: Source, S: Sink>(keys: &mut K, screen: &mut S) -> Status
    // What is taken, by the status.
    ensures keys { IsTrue K.tells → Reads (K.left keys.old) (K.left keys.new) result }
    // How often the keys are asked: one get for each byte that is taken, and one more, which finds the end or fails.
    ensures asks { IsTrue K.tells → Asks (K.left keys.old) (K.left keys.new)
        (K.gets keys.old) (K.gets keys.new) result }
    // What is shown: the rows, or a part of them, or the line of a message, which may be cut too.
    ensures rows { IsTrue K.tells → PutsRows (K.left keys.old) (S.contents screen.old) (S.contents screen.new) result }
    ensures message { Complains (S.contents screen.old) (S.contents screen.new)
        (S.faults screen.old) (S.faults screen.new) result }
    // When each status comes.
    ensures cause { EndCause (K.faults keys.old) (K.faults keys.new)
        (S.faults screen.old) (S.faults screen.new) result }
{
    let mut shown = Screen::new();
    match feed_all(keys, &mut shown) {
        Read::All => match put_screen(&shown, screen) {
            Put::Done => Status::Done,
            Put::Failed => Status::WriteFault,
        },
        Read::Failed => complain(Status::ReadFault, screen),
        Read::TooMany => complain(Status::KeyLimit, screen),
    }
}

// Feeds all bytes to a screen that is blank.
#[tactic(auto, using(crate::proofs::ReadBytes::fed_none, crate::proofs::ReadBytes::fed_column))]
fn feed_all<K: Source>(keys: &mut K, shown: &mut Screen) -> Read
    requires { shown.old ≡ kept_of blank_grid }
    ensures feeds { IsTrue K.tells → Feeds (K.left keys.old) (K.left keys.new) shown.new result }
    ensures asks { IsTrue K.tells → ReadAsks (K.left keys.old) (K.left keys.new)
        (K.gets keys.old) (K.gets keys.new) result }
    ensures cause { ReadCause (K.faults keys.old) (K.faults keys.new) result }
{
    for turn in 0..KEY_LIMIT {
        match keys.get() {
            Got::Byte(byte) => shown.feed(byte),
            Got::End => return Read::All,
            Got::Failed => return Read::Failed,
        }
    }
    Read::TooMany
}

// Puts the rows that are kept.
#[tactic(auto, using(cm_io::proofs::Writers::finish_puts))]
fn put_screen<S: Sink>(shown: &Screen, screen: &mut S) -> Put
    ensures bytes { Adds (S.contents screen.old) (S.contents screen.new) (rows_text shown.now.rows) result }
    ensures later { S.faults screen.old ≤ S.faults screen.new }
    ensures cause { PutCause (S.faults screen.old) (S.faults screen.new) result }
{
    let mut out = Writer::new(screen);
    put_rows(shown, &mut out);
    out.finish()
}

#[tactic(auto, using(crate::proofs::WrittenRows::no_rows, crate::proofs::WrittenRows::row_more))]
fn put_rows<S: Sink>(shown: &Screen, out: &mut Writer<'_, S>)
    ensures { Writes S.Sink out.old out.new (rows_text shown.now.rows) }
{
    for number in 0..shown.rows() {
        put_row(shown.row(number), out);
    }
}

#[tactic(auto, unfolding(crate::specs::ScreenText::row_line))]
fn put_row<S: Sink>(row: &Row, out: &mut Writer<'_, S>)
    ensures { Writes S.Sink out.old out.new (row_line row.now) }
{
    out.put_line(row.text());
}

// Puts the line of a message, as far as it goes, and hands the status back.
fn complain<S: Sink>(status: Status, screen: &mut S) -> Status
    ensures status { result ≡ status }
    ensures message { Tries (S.contents screen.old) (S.contents screen.new)
        (S.faults screen.old) (S.faults screen.new) (message_of status ++ end_of_line) }
    ensures later { S.faults screen.old ≤ S.faults screen.new }
{
    let _ = put_line(status.message().as_bytes(), screen);
    status
}
