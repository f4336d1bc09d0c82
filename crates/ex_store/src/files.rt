// The files of a store by family.
ghost use Rattle.std.specs.Prelude.{◌≡◌, ◌+◌, ◌-◌, ◌*◌, ◌^◌, ◌<◌, ◌≤◌, Some, [], ◌∷◌, ◌++◌, get_or, length, map, option_copied, option_map, set, slice_get, true, IfOk, OnErr, OnOk};
ghost use Rattle.ex_store.specs.declared.limits.TheConstants.{ROW_LIMIT, STORE_LIMIT};
ghost use Rattle.ex_store.specs.declared.key.Key.{Key as Named};
ghost use Rattle.ex_store.specs.declared.row.Row.{Row as Filed};
ghost use Rattle.ex_store.specs.Families.{by_family, room_at, rows_of};
ghost use Rattle.ex_store.specs.Views.{row_of_view};
ghost use Rattle.ex_store.specs.Ready.{are_doable, count_under, is_lawful, rows_after_all};
ghost use Rattle.ex_store.specs.Rows.{blank, by_row, expunged, files_of, first_in, is_short, pages_in, pages_marked, row_at, rows_in_either, total, with_remark};
ghost use Rattle.ex_store.specs.Adding.{keep_at, numbered};
ghost use Rattle.ex_store.specs.Appending.{bytes_at, found};
ghost use Rattle.cm_lists.specs.Ascent.{ascends};
ghost use Rattle.ex_generations.specs.declared.file.TheConstants.{FILE_LIMIT};
ghost use Rattle.ex_store.specs.WellFormed.{is_numbered};
ghost use Rattle.std.specs.List.{list_all};

use crate::family::{FamilyBox, blanks, bytes_at, find, found, keep_at, numbered};
use crate::file_numbers::{count, first_of, len, push, remark_file, row_at};
use crate::room::{change_families, make_room};
use crate::sweep::{drop_marked, pages_in, total};
use crate::{FullName, Key, Row, RowChange, RowView};
use cm_fields::{Code, Gen};
use cm_io::NoMemory;
use ex_generations::{File, Remark};
use std::alloc::Global;
use std::marker::Model;

// The files by family, counted. Contracts see one flat list of them, and for how many of each family there is room.
#[derive(Drop)]
pub(crate) struct Files {
    families: Vec<FamilyBox>,
}

impl Model for Files {
    ghost use Rattle.ex_store.specs.Families.{AreFamilies, rooms_of, rows_of};
    ghost use Rattle.ex_store.specs.State.{FilesWithRoom};

    ghost Value = { FilesWithRoom };

    ghost view = { λ it. record { rows = rows_of it.families.items; rooms = rooms_of it.families.items } };

    ghost invariant = { λ it. AreFamilies it.families.items };
}

impl Files {
    // No file.
    pub(crate) fn new(alloc: Global) -> Files
        ensures { result.rows ≡ [] }
    {
        Files {
            families: Vec::new(alloc),
        }
    }

    // How many there are.
    pub(crate) fn len(&self) -> usize
        ensures { result ≡ length self.now.rows }
    {
        len(&self.families)
    }

    // The file with this number.
    pub(crate) fn row_at(&self, i: usize) -> RowView<'_>
        requires { i < length self.now.rows }
        ensures { slice_get self.now.rows i ≡ Some (row_of_view result) }
    {
        self.find_row(i, &mut 0)
    }

    // The file of a full name, where there is one. How often a family is asked is added to `probes`.
    pub(crate) fn find(&self, full: &FullName, probes: &mut u64) -> Option<&File>
        ensures file { option_copied result ≡ option_map (λ row. row.file) (row_at full.now self.now.rows) }
        ensures later { probes.old ≤ probes.new }
        ensures few { 2 ^ (probes.new - probes.old) ≤ 2 * length self.now.rooms + 1 }
    {
        find(&self.families, full, probes)
    }

    // The file with this number. How often a family is asked is added to `probes`.
    pub(crate) fn find_row(&self, i: usize, probes: &mut u64) -> RowView<'_>
        requires { i < length self.now.rows }
        ensures row { slice_get self.now.rows i ≡ Some (row_of_view result) }
        ensures later { probes.old ≤ probes.new }
        ensures few { 2 ^ (probes.new - probes.old) ≤ 2 * length self.now.rooms + 1 }
    {
        row_at(&self.families, i, probes)
    }

    // How many files are before those of a directory.
    pub(crate) fn first_of(&self, directory: &[u8]) -> usize
        ensures { result ≡ first_in directory.now self.now.rows }
    {
        first_of(&self.families, directory)
    }

    // Changes one thing of the file with this number.
    pub(crate) fn remark(&mut self, i: usize, remark: Remark)
        requires { i < length self.old.rows }
        ensures rows { (d : Filed) → self.new.rows
            ≡ set self.old.rows i (with_remark remark (get_or self.old.rows i d)) }
        ensures rooms { self.new.rooms ≡ self.old.rooms }
    {
        remark_file(&mut self.families, i, remark);
    }

    // Makes room for what some changes put under each family.
    pub(crate) fn make_room(&mut self, alloc: Global, changes: &[RowChange]) -> Result<(), NoMemory>
        ensures rows { self.new.rows ≡ self.old.rows }
        ensures room { OnOk result ((key : Named) → 0 < count_under key changes.now
            → length (files_of key self.old.rows) + count_under key changes.now ≤ room_at key self.new.rooms) }
        ensures lean { OnOk result (length self.new.rooms ≤ length self.old.rows + length changes.now) }
    {
        let made = make_room(&mut self.families, alloc, changes);
        count(&mut self.families, 0);
        made?;
        Ok(())
    }

    // All changes, one after the other, where there is room for what they put.
    pub(crate) fn change(&mut self, changes: Vec<RowChange>)
        requires lawful { list_all is_lawful changes.items ≡ true }
        requires doable { are_doable self.old.rows changes.items ≡ true }
        requires few { length (rows_after_all self.old.rows changes.items) ≤ ROW_LIMIT }
        requires room { (key : Named) → 0 < count_under key changes.items
            → length (files_of key self.old.rows) + count_under key changes.items ≤ room_at key self.old.rooms }
        ensures rows { self.new.rows ≡ rows_after_all self.old.rows changes.items }
        ensures rooms { self.new.rooms ≡ self.old.rooms }
    {
        change_families(&mut self.families, changes);
        count(&mut self.families, 0);
    }

    // The bytes of all files together.
    pub(crate) fn total(&self) -> usize
        requires { total self.now.rows ≤ STORE_LIMIT }
        ensures { result ≡ total self.now.rows }
    {
        total(&self.families)
    }

    // The generation that a new file of a family takes: a number that is given, and else the next.
    pub(crate) fn numbered(&self, key: &Key, generation: Gen) -> Result<u32, Code>
        ensures { result ≡ numbered generation (files_of key.now self.now.rows) }
    {
        numbered(&self.families, key, generation)
    }

    // How many generations a new file of a family keeps: as many as the highest of them, and else this number.
    pub(crate) fn keep_at(&self, key: &Key, retention: u8) -> u8
        ensures { result ≡ keep_at retention key.now self.now.rows }
    {
        keep_at(&self.families, key, retention)
    }

    // What a file holds; nothing where it is not there.
    pub(crate) fn bytes_at(&self, full: &FullName) -> &[u8]
        ensures { result.now ≡ bytes_at full.now self.now.rows }
    {
        bytes_at(&self.families, full)
    }

    // The families of two directories, with their files without their bytes, as if nobody had read them.
    pub(crate) fn blanks(
        &self,
        alloc: Global,
        from: &[u8],
        to: &[u8],
    ) -> Result<Vec<FamilyBox>, NoMemory>
        ensures rows { IfOk result (λ families.
            rows_of families.items ≡ map blank (rows_in_either from.now to.now self.now.rows)) }
        ensures ascend { IfOk result (λ families. ascends by_family families.items ≡ true) }
    {
        blanks(alloc, &self.families, from, to)
    }

    // Expunges the files of a directory, and tells how many pages they had.
    pub(crate) fn expunge(&mut self, directory: &[u8]) -> u32
        requires { list_all is_short self.old.rows ≡ true }
        ensures rows { self.new.rows ≡ expunged directory.now self.old.rows }
        ensures rooms { self.new.rooms ≡ self.old.rooms }
        ensures pages { result ≡ pages_marked directory.now self.old.rows }
    {
        let pages = drop_marked(&mut self.families, directory);
        count(&mut self.families, 0);
        pages
    }

    // The generation of a family that is put after, or none, where a new one is added.
    pub(crate) fn found(&self, key: &Key, generation: Gen) -> Result<Option<u32>, Code>
        ensures { result ≡ found generation (files_of key.now self.now.rows) }
    {
        found(&self.families, key, generation)
    }

    // The pages of a directory's files.
    pub(crate) fn pages_in(&self, directory: &[u8]) -> u32
        requires { list_all is_short self.now.rows ≡ true }
        ensures { result ≡ pages_in directory.now self.now.rows }
    {
        pages_in(&self.families, directory)
    }

    // Adds a file that goes after all others.
    pub(crate) fn push(&mut self, alloc: Global, row: Row) -> Result<(), NoMemory>
        requires last { ascends by_row (self.old.rows ++ row ∷ []) ≡ true }
        requires few { length self.old.rows < ROW_LIMIT }
        requires short { length row.file.bytes ≤ FILE_LIMIT }
        requires number { is_numbered row.file.generation ≡ true }
        ensures added { OnOk result (self.new.rows ≡ self.old.rows ++ row ∷ []) }
        ensures refused { OnErr result (self.new.rows ≡ self.old.rows) }
    {
        push(&mut self.families, alloc, row)?;
        Ok(())
    }
}
