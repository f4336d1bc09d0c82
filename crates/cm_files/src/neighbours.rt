// The next file of a directory that is selected, told by its neighbours.
ghost use Rattle.std.specs.Prelude.{◌≡◌, ◌<◌, true, drop, length, option_and_then, slice_get};
ghost use Rattle.std.specs.List.{position_from};
ghost use Rattle.cm_files.specs.Catalogue.{IsCatalogue, row_of, rows_of};
ghost use Rattle.cm_files.specs.Neighbours.{is_bottom, is_taken, is_top, mark_of_same};
ghost use Rattle.cm_files.specs.RowTrials.{passes_at};
ghost use Rattle.cm_files.specs.Selection.{is_seen, is_selected, wanted};

use crate::selection::is_seen_at;
use crate::{Names, Row, Sought};
use cm_fields::Gen;

// Whether the row with this number has the mark that is looked for; none where it is of another file than `row`.
fn mark_at<N: Names>(
    names: &N,
    directory: u16,
    i: u32,
    row: &Row<'_>,
    deleted: bool,
) -> Option<bool>
    requires directory { directory < length (N.catalogue names.now).directories }
    requires row { i < length (rows_of (N.catalogue names.now) directory) }
    ensures { let rows = rows_of (N.catalogue names.now) directory in
        result ≡ option_and_then (mark_of_same (row_of directory row.now) deleted) (slice_get rows i) }
{
    let other = names.row(directory, i);
    if other.name == row.name && other.kind == row.kind {
        Some(other.deleted == deleted)
    } else {
        None
    }
}

// Whether none of the rows seen of the file of this one is after it.
#[tactic(auto, using(crate::proofs::Beside::walk_after))]
fn is_top_at<N: Names>(names: &N, directory: u16, i: u32, sought: &Sought<'_>) -> bool
    requires directory { directory < length (N.catalogue names.now).directories }
    requires row { i < length (rows_of (N.catalogue names.now) directory) }
    requires lawful { IsCatalogue (N.catalogue names.now) }
    requires seen { passes_at (is_seen (wanted sought.now)) (rows_of (N.catalogue names.now) directory) i ≡ true }
    ensures { let rows = rows_of (N.catalogue names.now) directory in
        result ≡ passes_at (is_top (wanted sought.now) rows) rows i }
{
    let row = names.row(directory, i);
    let count = names.rows(directory);
    for next in i + 1..count {
        match mark_at(names, directory, next, &row, sought.deleted) {
            None => return true,
            Some(true) => return false,
            Some(false) => {}
        }
    }
    true
}

// Whether none of the rows seen of the file of this one is before it.
#[tactic(auto, using(crate::proofs::Beside::walk_before))]
fn is_bottom_at<N: Names>(names: &N, directory: u16, i: u32, sought: &Sought<'_>) -> bool
    requires directory { directory < length (N.catalogue names.now).directories }
    requires row { i < length (rows_of (N.catalogue names.now) directory) }
    requires lawful { IsCatalogue (N.catalogue names.now) }
    requires seen { passes_at (is_seen (wanted sought.now)) (rows_of (N.catalogue names.now) directory) i ≡ true }
    ensures { let rows = rows_of (N.catalogue names.now) directory in
        result ≡ passes_at (is_bottom (wanted sought.now) rows) rows i }
{
    let row = names.row(directory, i);
    let mut after = i;
    while after > 0 {
        after -= 1;
        match mark_at(names, directory, after, &row, sought.deleted) {
            None => return true,
            Some(true) => return false,
            Some(false) => {}
        }
    }
    true
}

// Whether the row with this number, which is seen, is one of the generations that are meant.
fn is_taken_at<N: Names>(names: &N, directory: u16, i: u32, sought: &Sought<'_>) -> bool
    requires directory { directory < length (N.catalogue names.now).directories }
    requires row { i < length (rows_of (N.catalogue names.now) directory) }
    requires lawful { IsCatalogue (N.catalogue names.now) }
    requires seen { passes_at (is_seen (wanted sought.now)) (rows_of (N.catalogue names.now) directory) i ≡ true }
    ensures { let rows = rows_of (N.catalogue names.now) directory in
        result ≡ passes_at (is_taken (wanted sought.now) rows) rows i }
{
    match sought.generation {
        Gen::All => true,
        Gen::Missing if sought.all_generations => true,
        Gen::Missing => is_top_at(names, directory, i, sought),
        Gen::Highest => is_top_at(names, directory, i, sought),
        Gen::Lowest => is_bottom_at(names, directory, i, sought),
        Gen::Next => false,
        Gen::Number(number) => names.row(directory, i).generation == number,
    }
}

// Whether the row with this number is selected.
#[tactic(auto, unfolding(crate::specs::Selection::is_selected))]
fn is_selected_at<N: Names>(names: &N, directory: u16, i: u32, sought: &Sought<'_>) -> bool
    requires directory { directory < length (N.catalogue names.now).directories }
    requires row { i < length (rows_of (N.catalogue names.now) directory) }
    requires lawful { IsCatalogue (N.catalogue names.now) }
    ensures { let rows = rows_of (N.catalogue names.now) directory in
        result ≡ passes_at (is_selected (wanted sought.now) rows) rows i }
{
    is_seen_at(names, directory, i, sought) && is_taken_at(names, directory, i, sought)
}

/// The first file of a directory that is selected, among those with this number or a later one; none where
/// there is no such file. Files of one name and type are neighbours, so a walk over all that are selected looks
/// at each file a few times at most.
#[tactic(auto, using(crate::proofs::Walks::first_walk))]
pub fn select<N: Names>(names: &N, directory: u16, sought: &Sought<'_>, from: u32) -> Option<u32>
    requires { directory < length (N.catalogue names.now).directories }
    ensures { let rows = rows_of (N.catalogue names.now) directory in
        result ≡ position_from (is_selected (wanted sought.now) rows) from (drop from rows) }
{
    for i in from..names.rows(directory) {
        if is_selected_at(names, directory, i, sought) {
            return Some(i);
        }
    }
    None
}
