// Where the files of each directory begin among all files.
ghost use Rattle.std.specs.Prelude.{◌≡◌, ◌<◌, ◌≤◌, Some, length, option_map, slice_get};
ghost use Rattle.ex_store.specs.declared.limits.TheConstants.{DIRECTORY_LIMIT, ROW_LIMIT};
ghost use Rattle.ex_store.specs.Rows.{first_in};
ghost use Rattle.ex_store.specs.State.{firsts_in};

use crate::directories::Directories;
use crate::files::Files;
use crate::limits::DIRECTORY_LIMIT;
use arrayvec::ArrayVec;

// How many files are before those of the directory with this number.
fn first_at(directories: &Directories, files: &Files, i: usize) -> u16
    requires directory { i < length directories.now.list }
    requires few { length files.now.rows ≤ ROW_LIMIT }
    ensures { option_map (λ directory. first_in directory.name files.now.rows) (slice_get directories.now.list i)
        ≡ Some result }
{
    files.first_of(directories.at(i).name.as_bytes()) as u16
}

// How many files are before those of each directory.
pub(crate) fn firsts_in(directories: &Directories, files: &Files) -> ArrayVec<u16, DIRECTORY_LIMIT>
    requires directories { length directories.now.list ≤ DIRECTORY_LIMIT }
    requires rows { length files.now.rows ≤ ROW_LIMIT }
    ensures { result.items ≡ firsts_in directories.now.list files.now.rows }
{
    let mut firsts = ArrayVec::new();
    for i in 0..directories.len() {
        firsts.push(first_at(directories, files, i));
    }
    firsts
}
