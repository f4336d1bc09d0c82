// A row of a page.
ghost use Rattle.std.specs.Prelude.{◌≡◌, ◌≤◌, ◌<◌, ◌+◌, ◌++◌, [], ◌∷◌, length, take};
ghost use Rattle.cm_io.specs.Writer.{Writes};
ghost use Rattle.ex_spool.specs.Pages.{form_feed, printed, row_text};
ghost use Rattle.ex_spool.specs.Walk.{feed_if};

use cm_io::{Sink, Writer};
use cm_text::printing_byte;

/// The most bytes of a row.
pub const WIDEST_ROW: usize = 200;

// Room for a row, the end of it and the end of its page.
const ROW_ROOM: usize = 203;

/// What ends a page: a form feed.
#[tactic(auto, unfolding(crate::specs::Pages::form_feed))]
pub fn form_feed() -> &'static [u8]
    ensures { result.now ≡ form_feed }
{
    b"\x0c"
}

// The bytes of a row as they are printed, and blanks after them.
fn printed(text: &[u8]) -> [u8; ROW_ROOM]
    requires { length text.now ≤ WIDEST_ROW }
    ensures { take (length text.now) result ≡ printed text.now }
{
    let mut row = [0; ROW_ROOM];
    for at in 0..text.len() {
        row[at] = printing_byte(text[at]);
    }
    row
}

// The same, and after them the end of the row and of its page.
fn ended_row(text: &[u8]) -> [u8; ROW_ROOM]
    requires { length text.now ≤ WIDEST_ROW }
    ensures row { take (length text.now + 2) result ≡ row_text (printed text.now) }
    ensures page { take (length text.now + 3) result ≡ row_text (printed text.now) ++ form_feed }
{
    let mut row = printed(text);
    let size = text.len();
    row[size] = b'\r';
    row[size + 1] = b'\n';
    row[size + 2] = b'\x0c';
    row
}

// Puts a row, and the end of its page where that is full.
pub(crate) fn put_row<S: Sink>(text: &[u8], full: bool, out: &mut Writer<'_, S>)
    requires { length text.now ≤ WIDEST_ROW }
    ensures { Writes S.Sink out.old out.new (row_text (printed text.now) ++ feed_if full) }
{
    let row = ended_row(text);
    if full {
        out.put(&row[..text.len() + 3]);
    } else {
        out.put(&row[..text.len() + 2]);
    }
}
