// Files are deleted, undeleted and expunged, keep another number of generations, and are read.
ghost use Rattle.std.specs.Prelude.{◌≡◌, ◌≤◌, true, false, length, nat_lt};
ghost use Rattle.std.specs.List.{list_all};
ghost use Rattle.ex_generations.specs.declared.file.TheConstants.{FILE_LIMIT};
ghost use Rattle.ex_generations.specs.Generations.{page_count};
ghost use Rattle.ex_store.specs.Positions.{all_changed_at};
ghost use Rattle.ex_generations.specs.declared.file.Remark.TheVariants as remarks;
ghost use Rattle.ex_store.specs.declared.limits.TheConstants.{MOMENT_LIMIT, RETENTION_LIMIT};
ghost use Rattle.ex_store.specs.Rows.{expunged, pages_marked, with_remark};
ghost use Rattle.ex_store.specs.Selection.{selected, rows_with_remark, touched};
ghost use Rattle.ex_store.specs.State.{has_directory};
ghost use Rattle.ex_store.specs.WellFormed.{is_remark};

use crate::files::Files;
use crate::firsts::firsts_in;
use crate::{Place, Store};
use ex_generations::{Bytes, PAGE_BYTES, Remark};

/// How many pages a file with these bytes has, at most 26: a page is 512 words of five characters, 2,560 bytes, and a
/// part of one counts as a whole one.
pub fn page_count(bytes: &Bytes) -> u32
    requires { length bytes.now ≤ FILE_LIMIT }
    ensures count { result ≡ page_count (length bytes.now) }
    ensures few { result ≤ 26 }
{
    bytes.len().div_ceil(PAGE_BYTES) as u32
}

// Changes one thing of the files at these places.
fn remark_all(files: &mut Files, positions: &[u16], remark: Remark)
    requires { list_all (λ at. nat_lt at (length files.old.rows)) positions.now ≡ true }
    ensures rows { files.new.rows ≡ all_changed_at (with_remark remark) files.old.rows positions.now }
    ensures rooms { files.new.rooms ≡ files.old.rooms }
{
    for at in positions {
        files.remark(usize::from(*at), remark);
    }
}

impl Store {
    // Changes one thing of the files that a place selects, and tells how many they are.
    fn remark(&mut self, files: &Place, remark: Remark) -> u32
        requires { is_remark remark ≡ true }
        ensures changed { self.new ≡ record self.old {
          state = record self.old.state { rows = rows_with_remark remark files.now self.old.state };
        } }
        ensures count { result ≡ length (selected files.now.flags.deleted files.now self.old.state) }
    {
        let positions = self.positions(files, files.flags.deleted);
        remark_all(&mut self.files, &positions, remark);
        positions.len() as u32
    }

    /// Marks the files that a place selects as deleted, and tells how many they are; 0 where there is no such
    /// directory.
    pub fn mark(&mut self, files: &Place) -> u32
        ensures marked { self.new ≡ record self.old {
          state = record self.old.state { rows = rows_with_remark (remarks.Deleted true) files.now self.old.state };
        } }
        ensures count { result ≡ length (selected files.now.flags.deleted files.now self.old.state) }
    {
        self.remark(files, Remark::Deleted(true))
    }

    /// Clears the mark of the files that a place selects, and tells how many they are; 0 where there is no such
    /// directory.
    pub fn unmark(&mut self, files: &Place) -> u32
        ensures unmarked { self.new ≡ record self.old {
          state = record self.old.state { rows = rows_with_remark (remarks.Deleted false) files.now self.old.state };
        } }
        ensures count { result ≡ length (selected files.now.flags.deleted files.now self.old.state) }
    {
        self.remark(files, Remark::Deleted(false))
    }

    /// Has the files that a place selects keep so many generations each, and tells how many they are; 0 where there is
    /// no such directory. No file is marked by that: it counts when a file is next added under the name.
    pub fn set_keep(&mut self, files: &Place, keep: u8) -> u32
        requires { keep ≤ RETENTION_LIMIT }
        ensures kept { self.new ≡ record self.old {
          state = record self.old.state { rows = rows_with_remark (remarks.Keep keep) files.now self.old.state };
        } }
        ensures count { result ≡ length (selected files.now.flags.deleted files.now self.old.state) }
    {
        self.remark(files, Remark::Keep(keep))
    }

    /// Notes that the files that a place selects are read at this moment, and tells how many they are; 0 where there is
    /// no such directory.
    pub fn touch(&mut self, files: &Place, moment: u64) -> u32
        requires { moment ≤ MOMENT_LIMIT }
        ensures read { self.new ≡ record self.old {
          state = record self.old.state { rows = touched moment files.now self.old.state };
        } }
        ensures count { result ≡ length (selected files.now.flags.deleted files.now self.old.state) }
    {
        self.remark(files, Remark::Read(moment))
    }

    /// Removes the files of a directory that are marked as deleted, and tells how many pages they had.
    pub fn expunge(&mut self, directory: &str) -> u32
        requires { has_directory directory.now self.old.state.directories ≡ true }
        // [expunge]
        ensures kept { self.new ≡ record self.old {
          state = record self.old.state { rows = expunged directory.now self.old.state.rows };
        } }
        ensures pages { result ≡ pages_marked directory.now self.old.state.rows }
    {
        let pages = self.files.expunge(directory.as_bytes());
        self.firsts = firsts_in(&self.directories, &self.files);
        pages
    }
}
