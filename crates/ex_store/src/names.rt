// The store as the catalogue that file specifications are looked up in.
ghost use Rattle.std.specs.Prelude.{◌≡◌, ◌+◌, ◌-◌, ◌*◌, ◌^◌, ◌<◌, ◌≤◌, length, option_copied, option_map, slice_get, Some};
ghost use Rattle.cm_files.specs.Catalogue.{rows_of};
ghost use Rattle.ex_store.specs.Views.{row_of_view};
ghost use Rattle.ex_store.specs.Rows.{end_in, first_in, row_at};
ghost use Rattle.ex_store.specs.State.{catalogue_of, defined, rows_numbered};

use crate::{FullName, RowView, Store};
use cm_files::Names;
use ex_generations::File;

impl Store {
    // How many rows are before those of the directory with this number.
    fn first_at(&self, directory: u16) -> usize
        requires { directory < length self.now.state.directories }
        ensures { option_map (λ directory. first_in directory.name self.now.state.rows)
            (slice_get self.now.state.directories directory) ≡ Some result }
    {
        usize::from(self.firsts[usize::from(directory)])
    }

    // How many rows are before those after the directory with this number: where those of the next one begin.
    fn end_at(&self, directory: u16) -> usize
        requires { directory < length self.now.state.directories }
        ensures { option_map (λ directory. end_in directory.name self.now.state.rows)
            (slice_get self.now.state.directories directory) ≡ Some result }
    {
        match self.firsts.get(usize::from(directory) + 1) {
            Some(first) => usize::from(*first),
            None => self.files.len(),
        }
    }

    // A row of the directory with this number. How often a family is asked is added to `probes`.
    pub(crate) fn row_at(&self, directory: u16, i: u32, probes: &mut u64) -> RowView<'_>
        requires directory { directory < length self.now.state.directories }
        requires row { i < length (rows_numbered directory self.now.state) }
        ensures row { slice_get (rows_numbered directory self.now.state) i ≡ Some (row_of_view result) }
        ensures later { probes.old ≤ probes.new }
        ensures few { 2 ^ (probes.new - probes.old) ≤ 2 * length self.now.family_rooms + 1 }
    {
        let first = self.first_at(directory);
        self.files.find_row(first + i as usize, probes)
    }

    /// A file of the directory with this number, in ascending order of name, type and generation. How often a family is
    /// asked is added to `probes`: as often as the number of families has binary digits, so at most 13 times for 4,096.
    pub fn file(&self, directory: u16, i: u32, probes: &mut u64) -> &File
        requires directory { directory < length (catalogue_of self.now.state).directories }
        requires row { i < length (rows_of (catalogue_of self.now.state) directory) }
        ensures file { option_map (λ row. row.file) (slice_get (rows_numbered directory self.now.state) i)
            ≡ Some result.now }
        ensures later { probes.old ≤ probes.new }
        ensures few { 2 ^ (probes.new - probes.old) ≤ 2 * length self.now.family_rooms + 1 }
    {
        self.row_at(directory, i, probes).file
    }

    /// The file of a full name, where there is one. How often a family is asked is added to `probes`: as often as the
    /// number of families has binary digits, so at most 13 times for 4,096.
    pub fn find(&self, file: &FullName, probes: &mut u64) -> Option<&File>
        ensures file { option_copied result ≡ option_map (λ row. row.file) (row_at file.now self.now.state.rows) }
        ensures later { probes.old ≤ probes.new }
        ensures few { 2 ^ (probes.new - probes.old) ≤ 2 * length self.now.family_rooms + 1 }
    {
        self.files.find(file, probes)
    }

    // Whether a logical name stands for a directory.
    pub(crate) fn is_defined(&self, name: &str) -> bool
        ensures { result ≡ defined name.now self.now.state }
    {
        self.logical.has(name.as_bytes())
    }
}

impl Names for Store {
    ghost use Rattle.ex_store.specs.State.{catalogue_of};

    ghost catalogue = { λ held. catalogue_of held.state };

    fn directories(&self) -> u16 {
        self.directories.len() as u16
    }

    fn directory(&self, i: u16) -> &str {
        self.directories.at(usize::from(i)).name.as_str()
    }

    fn connected(&self) -> u16 {
        self.directories.number_of(self.connected.as_str()) as u16
    }

    fn logical(&self, name: &[u8]) -> Option<u16> {
        let directory = self.logical.find(name)?;
        Some(self.directories.number_of(directory.as_str()) as u16)
    }

    fn rows(&self, directory: u16) -> u32 {
        // A use of a field, for the proof: the state is well formed.
        let _ = &self.directories;
        (self.end_at(directory) - self.first_at(directory)) as u32
    }

    fn row(&self, directory: u16, i: u32) -> cm_files::Row<'_> {
        let row = self.row_at(directory, i, &mut 0);
        cm_files::Row {
            name: row.name.as_str(),
            kind: row.kind.as_str(),
            generation: row.file.generation,
            deleted: row.file.deleted,
        }
    }
}
