// Which files of a directory are selected.
ghost use Rattle.std.specs.Prelude.{◌≡◌, ◌<◌, length, option_copied};
ghost use Rattle.cm_files.specs.Catalogue.{rows_of};
ghost use Rattle.cm_files.specs.RowTrials.{may_pass, may_take, passes_at};
ghost use Rattle.cm_files.specs.Selection.{is_seen, name_matches, selects, wanted};

use crate::{Names, matches};
use cm_fields::Gen;

/// What files of a directory are looked for (GTJFN).
#[derive(Clone, Copy, Debug)]
pub struct Sought<'a> {
    /// The pattern of their names. None selects no file.
    pub name: Option<&'a [u8]>,
    /// The pattern of their types.
    pub kind: &'a [u8],
    /// Which generations of each name and type.
    pub generation: Gen,
    /// Whether all generations are meant where none is given, in place of the highest.
    pub all_generations: bool,
    /// Whether files that are marked deleted are meant, in place of those that are not.
    pub deleted: bool,
}

// Whether a name is looked for.
fn name_matches(pattern: Option<&[u8]>, name: &[u8]) -> bool
    ensures { result ≡ name_matches (option_copied pattern.entry) name.now }
{
    match pattern {
        Some(pattern) => matches(pattern, name),
        None => false,
    }
}

// Whether a file of this generation may be meant, whichever others there are.
fn may_take(generation: Gen, number: u32) -> bool
    ensures { result ≡ may_take generation number }
{
    match generation {
        Gen::Next => false,
        Gen::Number(wanted) => number == wanted,
        Gen::Missing | Gen::Highest | Gen::Lowest | Gen::All => true,
    }
}

/// Whether the row with this number has the name, the type and the mark that are looked for.
#[tactic(auto, unfolding(crate::specs::Selection::is_seen))]
pub(crate) fn is_seen_at<N: Names>(names: &N, directory: u16, i: u32, sought: &Sought<'_>) -> bool
    requires directory { directory < length (N.catalogue names.now).directories }
    requires row { i < length (rows_of (N.catalogue names.now) directory) }
    ensures { result ≡ passes_at (is_seen (wanted sought.now)) (rows_of (N.catalogue names.now) directory) i }
{
    let row = names.row(directory, i);
    row.deleted == sought.deleted
        && name_matches(sought.name, row.name.as_bytes())
        && matches(sought.kind, row.kind.as_bytes())
}

// Whether the row with this number may be selected.
#[tactic(auto, unfolding(crate::specs::RowTrials::may_pass))]
fn may_pass_at<N: Names>(names: &N, directory: u16, i: u32, sought: &Sought<'_>) -> bool
    requires directory { directory < length (N.catalogue names.now).directories }
    requires row { i < length (rows_of (N.catalogue names.now) directory) }
    ensures { result ≡ passes_at (may_pass (wanted sought.now)) (rows_of (N.catalogue names.now) directory) i }
{
    is_seen_at(names, directory, i, sought)
        && may_take(sought.generation, names.row(directory, i).generation)
}

/// Whether a file of a directory is selected (GTJFN), in one pass over its files. A file is, where its name
/// and type match and its mark is the one that is looked for, and where of those files of its name and type
/// it has a generation that is meant: the number given, the highest, the lowest, or each.
#[tactic(auto, using(crate::proofs::Choices::any_may_pass, crate::proofs::Walks::some_walk))]
pub fn selects<N: Names>(names: &N, directory: u16, sought: &Sought<'_>) -> bool
    requires { directory < length (N.catalogue names.now).directories }
    ensures { result ≡ selects (wanted sought.now) (rows_of (N.catalogue names.now) directory) }
{
    for i in 0..names.rows(directory) {
        if may_pass_at(names, directory, i, sought) {
            return true;
        }
    }
    false
}
