// Which files a place selects.
ghost use Rattle.std.specs.Prelude.{◌≡◌, ◌≤◌, true, drop, length, option_map};
ghost use Rattle.std.specs.List.{list_all, position_from};
ghost use Rattle.ex_store.specs.declared.limits.TheConstants.{ROW_LIMIT};
ghost use Rattle.ex_store.specs.Views.{row_of_view};
ghost use Rattle.ex_store.specs.Positions.{positions_from};
ghost use Rattle.ex_store.specs.Rows.{rows_in};
ghost use Rattle.ex_store.specs.Selection.{IsNext, IsNumber, is_selected_by, selected};
ghost use Rattle.ex_store.specs.State.{has_directory, number_of};
ghost use Rattle.ex_store.specs.WellFormed.{is_row_among};

use crate::limits::ROW_LIMIT;
use crate::{Place, RowView, Store};
use arrayvec::ArrayVec;
use cm_files::select;
use std::marker::Model;

/// The files that a place selects, one after the other (GTJFN and GNJFN), each looked for when it is asked for.
/// Contracts see the list of those that are left.
#[derive(Drop)]
pub struct Selection<'a, 'b> {
    store: &'a Store,
    files: &'b Place,
    deleted: bool,
    // The number of the place's directory; None where there is no such directory.
    directory: Option<u16>,
    // The number, among the files of the directory, from which on they are left.
    from: u32,
}

impl<'a, 'b> Model for Selection<'a, 'b> {
    ghost use Rattle.std.specs.Prelude.{List};
    ghost use Rattle.ex_store.specs.Selection.{IsWalk, selected_from};
    ghost use Rattle.ex_store.specs.declared.row.Row.{Row as Filed};

    ghost Value = { List Filed };

    ghost view = { λ it. selected_from it.deleted it.files.now it.store.now.state it.from };

    ghost invariant = { λ it. IsWalk it.files.now.directory it.store.now.state it.directory it.from };
}

impl<'a, 'b> Iterator for Selection<'a, 'b> {
    ghost use Rattle.std.specs.Iterator.{YieldsFirstBy, item_count};
    ghost use Rattle.ex_store.specs.Views.{row_of_view};

    type Item = RowView<'a>;

    ghost next_gives = { YieldsFirstBy row_of_view (λ rows. rows) };

    ghost remaining = { item_count (λ rows. rows) };

    fn next(&mut self) -> Option<RowView<'a>> {
        let directory = self.directory?;
        let (at, row) = self
            .store
            .next_row(directory, self.files, self.deleted, self.from)?;
        self.from = at + 1;
        Some(row)
    }
}

impl Store {
    /// The files that a place selects, with this mark, in ascending order; none where there is no such directory.
    pub fn selection<'a, 'b>(&'a self, files: &'b Place, deleted: bool) -> Selection<'a, 'b>
        ensures value { result ≡ selected deleted files.now self.now.state }
        ensures lawful { list_all (is_row_among self.now.state.directories) result ≡ true }
        ensures few { length result ≤ ROW_LIMIT }
    {
        // A use of a field, for the proof: the state is well formed.
        let _ = &self.directories;
        Selection {
            store: self,
            files,
            deleted,
            directory: self.find_directory(files.directory.as_str()),
            from: 0,
        }
    }

    // The number of the directory of this name; None where there is none of that name.
    fn find_directory(&self, name: &str) -> Option<u16>
        ensures { IsNumber name.now self.now.state result }
    {
        let directory = self.directories.find(name)?;
        Some(directory as u16)
    }

    /// The first file of a place's directory that the place selects, with this mark, among those with this number or a
    /// later one; none where there is no such file or no such directory (GTJFN).
    pub fn select(&self, files: &Place, deleted: bool, from: u32) -> Option<u32>
        ensures { let rows = rows_in files.now.directory self.now.state.rows in
            result ≡ position_from (is_selected_by deleted files.now self.now.state) from (drop from rows) }
    {
        let directory = self.find_directory(files.directory.as_str())?;
        self.next_selected(directory, files, deleted, from)
    }

    // The same, where the place's directory has this number.
    fn next_selected(&self, directory: u16, files: &Place, deleted: bool, from: u32) -> Option<u32>
        requires there { has_directory files.now.directory self.now.state.directories ≡ true }
        requires number { directory ≡ number_of files.now.directory self.now.state.directories }
        ensures { let rows = rows_in files.now.directory self.now.state.rows in
            result ≡ position_from (is_selected_by deleted files.now self.now.state) from (drop from rows) }
    {
        // A use of a field, for the proof: the state is well formed.
        let _ = &self.directories;
        select(self, directory, &files.sought(deleted), from)
    }

    // The first file itself, beside its number.
    fn next_row(
        &self,
        directory: u16,
        files: &Place,
        deleted: bool,
        from: u32,
    ) -> Option<(u32, RowView<'_>)>
        requires there { has_directory files.now.directory self.now.state.directories ≡ true }
        requires number { directory ≡ number_of files.now.directory self.now.state.directories }
        ensures { IsNext deleted files.now self.now.state from
            (option_map (λ found. (found.0, row_of_view found.1)) result) }
    {
        // A use of a field, for the proof: the state is well formed.
        let _ = &self.directories;
        let at = self.next_selected(directory, files, deleted, from)?;
        Some((at, self.row_at(directory, at, &mut 0)))
    }

    // Where the rows stand that a place selects, with this mark.
    pub(crate) fn positions(&self, files: &Place, deleted: bool) -> ArrayVec<u16, ROW_LIMIT>
        ensures { result.items
            ≡ positions_from (is_selected_by deleted files.now self.now.state) 0 self.now.state.rows }
    {
        let mut positions = ArrayVec::new();
        let first = self.files.first_of(files.directory.as_bytes());
        let Some(directory) = self.find_directory(files.directory.as_str()) else {
            return positions;
        };
        let mut from = 0;
        while let Some(i) = self.next_selected(directory, files, deleted, from) {
            positions.push((first + i as usize) as u16);
            from = i + 1;
        }
        positions
    }
}
