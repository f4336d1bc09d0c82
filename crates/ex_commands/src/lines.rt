// Lines for each of some files are put.
#![tactic(auto, using(cm_io::proofs::Texts::texts))]

ghost use Rattle.std.specs.Prelude.{◌≡◌, ◌≤◌, true, [], ◌∷◌, filter, length};
ghost use Rattle.std.specs.List.{flat_map, list_all};
ghost use Rattle.cm_io.specs.Writer.{Writes};
ghost use Rattle.ex_generations.specs.declared.file.TheConstants.{FILE_LIMIT};
ghost use Rattle.ex_store.specs.declared.limits.TheConstants.{MOMENT_LIMIT, ROW_LIMIT};
ghost use Rattle.ex_store.specs.Views.{row_of_view};
ghost use Rattle.ex_store.specs.Plan.{sources};
ghost use Rattle.ex_store.specs.WellFormed.{is_reading, is_row_among};
ghost use Rattle.ex_commands.specs.Replies.{changed_line, day_number, day_of, ends_line, heading, held_text, is_within, line_of, listed_line, measures_text, read_day, shown_day, total_line};

use crate::names::{full_of, put_directory, put_file, put_full};
use crate::replies::put_done;
use crate::texts::{files_counted, never, space, structure, total_of};
use cm_dates::day_text;
use cm_io::{Sink, Writer};
use cm_text::end_of_line;
use ex_generations::File;
use ex_store::{Place, RowView, Selection, Store, page_count};

// The seconds of a day.
pub(crate) const DAY_SECONDS: u64 = 86_400;

/// The days on which files were written: the day `since` or later, and earlier than the day `before`, where they are
/// said.
#[derive(Clone, Copy)]
pub struct Days {
    pub since: Option<i32>,
    pub before: Option<i32>,
}

/// What the line of a file tells.
#[derive(Clone, Copy)]
pub enum Lines {
    /// That something of it is changed.
    Changed,
    /// How large it is, and the day when it was last read, or else written, where it was written on these days.
    Listed { days: Days, read: bool },
    /// What it holds.
    Held,
}

/// The files that a place means, one after the other, marked or not as the place says.
pub(crate) fn sources<'a, 'b>(store: &'a Store, files: &'b Place) -> Selection<'a, 'b>
    ensures value { result ≡ sources files.now store.now.state }
    ensures lawful { list_all (is_row_among store.now.state.directories) result ≡ true }
    ensures few { length result ≤ ROW_LIMIT }
{
    store.selection(files, files.flags.deleted)
}

// The day of a moment.
fn day_number(moment: u64) -> i32
    requires { moment ≤ MOMENT_LIMIT }
    ensures { result ≡ day_number moment }
{
    (moment / DAY_SECONDS) as i32
}

// Whether a file is of these days.
fn is_within(days: Days, row: RowView<'_>) -> bool
    requires { (row_of_view row).file.moment ≤ MOMENT_LIMIT }
    ensures { result ≡ is_within days (row_of_view row.entry) }
{
    let day = day_number(row.file.moment);
    days.since.map_or(true, |since| since <= day) && days.before.map_or(true, |before| day < before)
}

// One where a file is of these days, and else none.
fn count_within(days: Days, row: RowView<'_>) -> u32
    requires { (row_of_view row).file.moment ≤ MOMENT_LIMIT }
    ensures count { result ≡ length (filter (is_within days) (row_of_view row.entry ∷ [])) }
    ensures few { result ≤ 1 }
{
    if is_within(days, row) { 1 } else { 0 }
}

/// How many files of these days a place means.
#[tactic(auto)]
pub(crate) fn count_files(store: &Store, files: &Place, days: Days) -> u32
    ensures { result ≡ length (filter (is_within days) (sources files.now store.now.state)) }
{
    let mut count = 0;
    for row in sources(store, files) {
        count += count_within(days, row);
    }
    count
}

/// Puts the day of a moment, in seconds since 1-JAN-1970.
pub fn put_day<S: Sink>(moment: u64, out: &mut Writer<'_, S>)
    requires { moment ≤ MOMENT_LIMIT }
    ensures { Writes S.Sink out.old out.new (day_of moment) }
{
    out.put(day_text(day_number(moment)).as_str().as_bytes());
}

// Puts the day when a file was last read, or that it never was.
#[tactic(auto, using(cm_io::proofs::Texts::each))]
fn put_read_day<S: Sink>(read: Option<u64>, out: &mut Writer<'_, S>)
    requires { is_reading read ≡ true }
    ensures { Writes S.Sink out.old out.new (read_day read) }
{
    match read {
        Some(moment) => put_day(moment, out),
        None => out.put(never()),
    }
}

// Puts the day when a file was last read, or else when it was written.
#[tactic(auto, using(cm_io::proofs::Texts::each))]
fn put_shown_day<S: Sink>(read: bool, file: &File, out: &mut Writer<'_, S>)
    requires moment { file.now.moment ≤ MOMENT_LIMIT }
    requires reading { is_reading file.now.read ≡ true }
    ensures { Writes S.Sink out.old out.new (shown_day read file.now) }
{
    if read {
        put_read_day(file.read, out);
    } else {
        put_day(file.moment, out);
    }
}

// Puts how many pages and bytes a file has, and the day that is shown of it.
#[tactic(auto, using(cm_io::proofs::Texts::texts), unfolding(crate::specs::Replies::measures_text))]
fn put_measures<S: Sink>(read: bool, file: &File, out: &mut Writer<'_, S>)
    requires moment { file.now.moment ≤ MOMENT_LIMIT }
    requires reading { is_reading file.now.read ≡ true }
    requires short { length file.now.bytes ≤ FILE_LIMIT }
    ensures { Writes S.Sink out.old out.new (measures_text read file.now) }
{
    out.put_decimal(u64::from(page_count(&file.bytes)));
    out.put(space());
    out.put_decimal(file.bytes.len() as u64);
    out.put(space());
    put_shown_day(read, file, out);
}

// Puts the line of a file in a listing.
#[tactic(auto, using(cm_io::proofs::Texts::texts), unfolding(crate::specs::Replies::listed_line))]
fn put_listed<S: Sink>(read: bool, row: RowView<'_>, out: &mut Writer<'_, S>)
    requires moment { (row_of_view row).file.moment ≤ MOMENT_LIMIT }
    requires reading { is_reading (row_of_view row).file.read ≡ true }
    requires short { length (row_of_view row).file.bytes ≤ FILE_LIMIT }
    ensures { Writes S.Sink out.old out.new (listed_line read (row_of_view row.entry)) }
{
    out.put(space());
    put_file(full_of(row), out);
    out.put(space());
    put_measures(read, row.file, out);
    out.put(end_of_line());
}

// Puts the line of a file of which something is changed.
#[tactic(auto, using(cm_io::proofs::Texts::texts), unfolding(crate::specs::Replies::changed_line))]
fn put_changed<S: Sink>(row: RowView<'_>, out: &mut Writer<'_, S>)
    ensures { Writes S.Sink out.old out.new (changed_line (row_of_view row.entry)) }
{
    out.put(space());
    put_full(full_of(row), out);
    put_done(out);
}

// Whether a text ends with a line feed, or is empty.
fn ends_line(bytes: &[u8]) -> bool
    ensures { result ≡ ends_line bytes.now }
{
    match bytes.last() {
        Some(byte) => *byte == b'\n',
        None => true,
    }
}

/// Puts what a file holds, and the end of its last line where that is begun.
#[tactic(auto, using(cm_io::proofs::Texts::texts), unfolding(crate::specs::Replies::held_text))]
pub fn put_held<S: Sink>(row: RowView<'_>, out: &mut Writer<'_, S>)
    ensures { Writes S.Sink out.old out.new (held_text (row_of_view row.entry)) }
{
    let bytes = row.file.bytes.as_slice();
    out.put(bytes);
    out.put(if ends_line(bytes) { b"" } else { end_of_line() });
}

// Puts the line of a file in a listing, where it is of these days.
#[tactic(auto, using(cm_io::proofs::Texts::each))]
fn put_listed_within<S: Sink>(days: Days, read: bool, row: RowView<'_>, out: &mut Writer<'_, S>)
    requires moment { (row_of_view row).file.moment ≤ MOMENT_LIMIT }
    requires reading { is_reading (row_of_view row).file.read ≡ true }
    requires short { length (row_of_view row).file.bytes ≤ FILE_LIMIT }
    ensures { Writes S.Sink out.old out.new (line_of (Lines.Listed days read) (row_of_view row.entry)) }
{
    if is_within(days, row) {
        put_listed(read, row, out);
    }
}

// Puts what is to be put for a file.
fn put_row<S: Sink>(lines: Lines, row: RowView<'_>, out: &mut Writer<'_, S>)
    requires moment { (row_of_view row).file.moment ≤ MOMENT_LIMIT }
    requires reading { is_reading (row_of_view row).file.read ≡ true }
    requires short { length (row_of_view row).file.bytes ≤ FILE_LIMIT }
    ensures { Writes S.Sink out.old out.new (line_of lines (row_of_view row.entry)) }
{
    match lines {
        Lines::Changed => put_changed(row, out),
        Lines::Listed { days, read } => put_listed_within(days, read, row, out),
        Lines::Held => put_held(row, out),
    }
}

/// Puts the line of each file that a place means.
#[tactic(auto, using(cm_io::proofs::Texts::turns))]
pub(crate) fn put_lines<S: Sink>(
    store: &Store,
    files: &Place,
    lines: Lines,
    out: &mut Writer<'_, S>,
)
    ensures { Writes S.Sink out.old out.new (flat_map (line_of lines) (sources files.now store.now.state)) }
{
    for row in sources(store, files) {
        put_row(lines, row, out);
    }
}

/// Puts the head of a listing.
#[tactic(auto, using(cm_io::proofs::Texts::texts), unfolding(crate::specs::Replies::heading))]
pub(crate) fn put_heading<S: Sink>(directory: &str, out: &mut Writer<'_, S>)
    ensures { Writes S.Sink out.old out.new (heading directory.now) }
{
    out.put(structure());
    put_directory(directory, out);
    out.put(end_of_line());
}

/// Puts how many files are in a listing.
#[tactic(auto, using(cm_io::proofs::Texts::texts), unfolding(crate::specs::Replies::total_line))]
pub(crate) fn put_total<S: Sink>(count: u32, out: &mut Writer<'_, S>)
    ensures { Writes S.Sink out.old out.new (total_line count) }
{
    out.put(total_of());
    out.put_decimal(u64::from(count));
    out.put(files_counted());
    out.put(end_of_line());
}
