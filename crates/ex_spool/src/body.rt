// The pages of a file.
ghost use Rattle.std.specs.Prelude.{◌≡◌, ◌<◌, ◌≤◌, ◌+◌, ◌==◌, if◌then◌else◌};
ghost use Rattle.cm_io.specs.Writer.{Writes};
ghost use Rattle.ex_spool.specs.Pages.{body_text, line_rows, rows_of};
ghost use Rattle.ex_spool.specs.Walk.{count_after, feed_if, next_row, rows_after};
ghost use Rattle.ex_spool.specs.declared.row.TheConstants.{WIDEST_ROW};

use crate::row::{WIDEST_ROW, form_feed, put_row};
use cm_io::{Sink, Writer};
use cm_text::first_line;

/// The most rows of a page.
pub const PAGE_ROWS: u32 = 60;

// How many rows the page has after one more: none, where that fills it.
fn next_row(count: u32) -> u32
    requires { count < PAGE_ROWS }
    ensures next { result ≡ next_row count }
    ensures few { result < PAGE_ROWS }
{
    if count + 1 == PAGE_ROWS { 0 } else { count + 1 }
}

// The end of a page, where it is one.
fn feed_if(ends: bool) -> &'static [u8]
    ensures { result.now ≡ feed_if ends }
{
    if ends { form_feed() } else { b"" }
}

// Puts the rows of a line after so many of a page, and tells how many the page has then.
#[tactic(auto, using(cm_io::proofs::Texts::turns))]
fn put_pieces<S: Sink>(line: &[u8], width: usize, before: u32, out: &mut Writer<'_, S>) -> u32
    requires some { 0 < width }
    requires fits { width ≤ WIDEST_ROW }
    requires few { before < PAGE_ROWS }
    ensures rows { Writes S.Sink out.old out.new (rows_after before (line_rows width line.now)) }
    ensures count { result ≡ count_after before (line_rows width line.now) }
    ensures less { result < PAGE_ROWS }
{
    let mut rest = line;
    let mut count = before;
    while rest.len() > width {
        let (row, more) = rest.split_at(width);
        put_row(row, count + 1 == PAGE_ROWS, out);
        count = next_row(count);
        rest = more;
    }
    put_row(rest, count + 1 == PAGE_ROWS, out);
    next_row(count)
}

// Puts the rows of a file, with the ends of the pages that they fill, and tells how many the last page has.
#[tactic(auto, using(cm_io::proofs::Texts::turns))]
fn put_lines<S: Sink>(bytes: &[u8], width: usize, out: &mut Writer<'_, S>) -> u32
    requires some { 0 < width }
    requires fits { width ≤ WIDEST_ROW }
    ensures rows { Writes S.Sink out.old out.new (rows_after 0 (rows_of width bytes.now)) }
    ensures count { result ≡ count_after 0 (rows_of width bytes.now) }
{
    let mut rest = bytes;
    let mut count = 0;
    while let Some(first) = first_line(rest) {
        count = put_pieces(rest.split_at(first.end).0, width, count, out);
        rest = rest.split_at(first.next).1;
    }
    count
}

/// Puts the pages of a file with these bytes, in rows of at most so many bytes. It goes through the bytes once, puts
/// each row at once, and takes no memory.
#[tactic(auto, using(crate::proofs::PageLaws::body_written))]
pub fn put_body<S: Sink>(bytes: &[u8], width: usize, out: &mut Writer<'_, S>)
    requires some { 0 < width }
    requires fits { width ≤ WIDEST_ROW }
    // [page]
    ensures { Writes S.Sink out.old out.new (body_text width bytes.now) }
{
    let count = put_lines(bytes, width, out);
    out.put(feed_if(count != 0));
}
