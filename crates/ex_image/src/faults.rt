// What is wrong with a record that may be where it is by its form.
ghost use Rattle.std.specs.Prelude.{◌≡◌, ◌≤◌, ℕ, List, pos, option_map};
ghost use Rattle.std.specs.Ordering.{is_lt, on};
ghost use Rattle.cm_files.specs.Catalogue.{by_bytes};
ghost use Rattle.ex_image.specs.Reading.{fault_of, has_room, is_above, is_in_range, is_there, stands_above};
ghost use Rattle.ex_image.specs.LineViews.{entry_said, row_said};
ghost use Rattle.ex_store.specs.Views.{row_of_view};
ghost use Rattle.ex_store.specs.Rows.{by_row, total};
ghost use Rattle.ex_store.specs.WellFormed.{is_day, is_numbered, is_reading, is_stamped};

use crate::Kind;
use crate::entry::{Entry, FileEntry, RequestEntry};
use ex_generations::{FILE_LIMIT, GENERATION_LIMIT};
use ex_store::{
    AFTER_LIMIT, COPIES_LIMIT, DIRECTORY_LIMIT, LOGICAL_LIMIT, MOMENT_LIMIT, Parts, QUEUE_LIMIT,
    RETENTION_LIMIT, ROW_LIMIT, RowView, STORE_LIMIT,
};

fn is_numbered(generation: u64) -> bool
    ensures { result ≡ is_numbered generation }
{
    generation > 0 && generation <= u64::from(GENERATION_LIMIT)
}

fn is_day(after: Option<u64>) -> bool
    ensures { result ≡ is_day (option_map pos after) }
{
    match after {
        None => true,
        Some(day) => day <= u64::from(AFTER_LIMIT.unsigned_abs()),
    }
}

fn is_reading(read: Option<u64>) -> bool
    ensures { result ≡ is_reading read }
{
    match read {
        None => true,
        Some(moment) => moment <= MOMENT_LIMIT,
    }
}

fn is_stamped(it: &FileEntry<'_>) -> bool
    ensures { result ≡ is_stamped (row_said it.now).file }
{
    it.stamp.keep <= u64::from(RETENTION_LIMIT)
        && it.stamp.moment <= MOMENT_LIMIT
        && is_reading(it.stamp.read)
}

fn is_file_in_range(it: &FileEntry<'_>) -> bool
    ensures { result ≡ is_in_range (entry_said (Entry.File it.now)) }
{
    is_numbered(it.file.generation) && is_stamped(it) && it.size <= FILE_LIMIT as u64
}

fn is_request_in_range(it: &RequestEntry<'_>) -> bool
    ensures { result ≡ is_in_range (entry_said (Entry.Request it.now)) }
{
    is_numbered(it.file.generation)
        && it.copies > 0
        && it.copies <= u64::from(COPIES_LIMIT)
        && is_day(it.after)
}

// Whether the numbers are in their ranges.
fn is_in_range(entry: &Entry<'_>) -> bool
    ensures { result ≡ is_in_range (entry_said entry.now) }
{
    match entry {
        Entry::Head(_) => true,
        Entry::Directory { retention, .. } => *retention <= u64::from(RETENTION_LIMIT),
        Entry::Connected { .. } => true,
        Entry::Logical { .. } => true,
        Entry::File(it) => is_file_in_range(it),
        Entry::Request(it) => is_request_in_range(it),
        Entry::End => true,
    }
}

// Whether the directory that is named is there.
fn is_there(parts: &Parts<'_>, entry: &Entry<'_>) -> bool
    ensures { result ≡ is_there parts.now (entry_said entry.now) }
{
    match entry {
        Entry::Head(_) => true,
        Entry::Directory { .. } => true,
        Entry::Connected { name } => parts.has_directory(name),
        Entry::Logical { directory, .. } => parts.has_directory(directory),
        Entry::File(it) => parts.has_directory(it.file.directory),
        Entry::Request(it) => parts.has_directory(it.file.directory),
        Entry::End => true,
    }
}

// Whether a name is above the last directory.
fn is_directory_above(parts: &Parts<'_>, name: &str) -> bool
    ensures { (retention : ℕ)
        → result ≡ stands_above (on (λ directory. directory.name) by_bytes) parts.now.directories
        (record { name = name.now; retention = retention }) }
{
    match parts.directories().checked_sub(1) {
        Some(last) => {
            let last = parts.directory(last);
            last.name.as_bytes().cmp(name.as_bytes()).is_lt()
        }
        None => true,
    }
}

// Whether a name is above the last logical name.
fn is_logical_above(parts: &Parts<'_>, name: &str) -> bool
    ensures { (directory : List ℕ) → result ≡ stands_above (on (λ entry. entry.name) by_bytes) parts.now.logical
        (record { name = name.now; directory = directory }) }
{
    match parts.logicals().checked_sub(1) {
        Some(last) => {
            let last = parts.logical(last);
            last.name.as_bytes().cmp(name.as_bytes()).is_lt()
        }
        None => true,
    }
}

// Whether a row is below a file.
fn is_below(row: RowView<'_>, it: &FileEntry<'_>) -> bool
    ensures { result ≡ is_lt (by_row (row_of_view row.entry) (row_said it.now)) }
{
    let directory = row.directory.as_bytes().cmp(it.file.directory.as_bytes());
    let name = row.name.as_bytes().cmp(it.file.name.as_bytes());
    let kind = row.kind.as_bytes().cmp(it.file.kind.as_bytes());
    let generation = u64::from(row.file.generation).cmp(&it.file.generation);
    directory.then(name.then(kind)).then(generation).is_lt()
}

// Whether a file is above the last one.
fn is_file_above(parts: &Parts<'_>, it: &FileEntry<'_>) -> bool
    ensures { result ≡ stands_above by_row parts.now.rows (row_said it.now) }
{
    match parts.rows().checked_sub(1) {
        Some(last) => is_below(parts.row(last), it),
        None => true,
    }
}

// Whether it is above the one of its kind before it.
fn is_above(parts: &Parts<'_>, entry: &Entry<'_>) -> bool
    ensures { result ≡ is_above parts.now (entry_said entry.now) }
{
    match entry {
        Entry::Head(_) => true,
        Entry::Directory { name, .. } => is_directory_above(parts, name),
        Entry::Connected { .. } => true,
        Entry::Logical { name, .. } => is_logical_above(parts, name),
        Entry::File(it) => is_file_above(parts, it),
        Entry::Request(_) => true,
        Entry::End => true,
    }
}

// Whether there is room for one more of its kind, beside files of so many bytes.
fn has_room(parts: &Parts<'_>, bytes: usize, entry: &Entry<'_>) -> bool
    requires counted { bytes ≡ total parts.now.rows }
    requires within { bytes ≤ STORE_LIMIT }
    ensures { result ≡ has_room parts.now (entry_said entry.now) }
{
    match entry {
        Entry::Head(_) => true,
        Entry::Directory { .. } => parts.directories() < DIRECTORY_LIMIT,
        Entry::Connected { .. } => true,
        Entry::Logical { .. } => parts.logicals() < LOGICAL_LIMIT,
        Entry::File(it) => { parts.rows() < ROW_LIMIT && it.size <= (STORE_LIMIT - bytes) as u64 }
        Entry::Request(_) => parts.queue().len() < QUEUE_LIMIT,
        Entry::End => true,
    }
}

/// The first fault of a record that may be here by its form, after those that made these parts, whose files have
/// so many bytes.
#[tactic(auto, unfolding(crate::specs::Reading::fault_of))]
pub(crate) fn fault_of(parts: &Parts<'_>, bytes: usize, entry: &Entry<'_>) -> Option<Kind>
    requires counted { bytes ≡ total parts.now.rows }
    requires within { bytes ≤ STORE_LIMIT }
    ensures { result ≡ fault_of parts.now (entry_said entry.now) }
{
    if !is_in_range(entry) {
        return Some(Kind::Range);
    }
    if !is_there(parts, entry) {
        return Some(Kind::Name);
    }
    if !is_above(parts, entry) {
        return Some(Kind::Order);
    }
    if !has_room(parts, bytes, entry) {
        return Some(Kind::Limit);
    }
    None
}
