// The files of all families, by their number in ascending order.
ghost use Rattle.std.specs.Prelude.{◌≡◌, ◌+◌, ◌-◌, ◌*◌, ◌^◌, ◌<◌, ◌≤◌, [], ◌∷◌, ◌++◌, OnErr, OnOk, Some, get_or, length, set, slice_get, take, true};
ghost use Rattle.ex_generations.specs.declared.file.TheConstants.{FILE_LIMIT};
ghost use Rattle.cm_lists.specs.Ascent.{ascends};
ghost use Rattle.ex_store.specs.declared.limits.TheConstants.{ROW_LIMIT};
ghost use Rattle.ex_store.specs.Families.{AreFamilies, IsCounted, by_family, counted, rooms_of, rows_of, rows_under};
ghost use Rattle.ex_store.specs.Views.{row_of_view};
ghost use Rattle.ex_store.specs.declared.family.Family.{Family as FamilyValue};
ghost use Rattle.ex_store.specs.declared.row.Row.{Row as Filed};
ghost use Rattle.ex_store.specs.Rows.{by_row, first_in, with_remark};
ghost use Rattle.ex_store.specs.WellFormed.{is_numbered};

use crate::family::{Family, FamilyBox, enter};
use crate::{Row, RowView};
use cm_io::NoMemory;
use cm_text::seek;
use ex_generations::Remark;
use std::alloc::Global;

impl FamilyBox {
    // Counts its files after so many, and tells how many there are with them.
    fn count(&mut self, before: usize) -> usize
        requires { before + length self.old.gens.files ≤ ROW_LIMIT }
        ensures end { result ≡ before + length self.old.gens.files }
        ensures counted { self.new ≡ record self.old { end = result } }
    {
        self.family.end = before + self.family.gens.as_slice().len();
        self.family.end
    }

    // How many files the families up to it have, where they are counted.
    fn end(&self) -> usize
        ensures { result ≡ self.now.end }
    {
        self.family.end
    }

    // The file at a place of its own.
    fn file_at(&self, i: usize) -> RowView<'_>
        requires { i < length self.now.gens.files }
        ensures { slice_get (rows_under self.now) i ≡ Some (row_of_view result) }
    {
        let family: &Family = &self.family;
        RowView {
            directory: &family.key.directory,
            name: &family.key.name,
            kind: &family.key.kind,
            file: &family.gens.as_slice()[i],
        }
    }

    // Changes one thing of the file at a place of its own.
    fn remark(&mut self, i: usize, remark: Remark)
        requires within { i < length self.old.gens.files }
        ensures key { self.new.key ≡ self.old.key }
        ensures end { self.new.end ≡ self.old.end }
        ensures len { length self.new.gens.files ≡ length self.old.gens.files }
        ensures room { self.new.gens.room ≡ self.old.gens.room }
        ensures rows { (d : Filed) → rows_under self.new
            ≡ set (rows_under self.old) i (with_remark remark (get_or (rows_under self.old) i d)) }
    {
        self.family.gens.remark(i, remark);
    }
}

// How many files so many of the first families have.
fn files_before(families: &[FamilyBox], n: usize) -> usize
    requires counted { IsCounted 0 (take n families.now) }
    requires within { n ≤ length families.now }
    ensures { result ≡ length (rows_of (take n families.now)) }
{
    if n == 0 { 0 } else { families[n - 1].end() }
}

// Counts the files of the families from this one on, where those of the families before it are counted.
pub(crate) fn count(families: &mut Vec<FamilyBox>, at: usize)
    requires within { at ≤ length families.old.items }
    requires counted { IsCounted 0 (take at families.old.items) }
    requires few { length (rows_of families.old.items) ≤ ROW_LIMIT }
    ensures { families.new.items ≡ counted 0 families.old.items }
{
    let mut before = files_before(families, at);
    for i in at..families.len() {
        before = families[i].count(before);
    }
}

// How many files there are.
pub(crate) fn len(families: &[FamilyBox]) -> usize
    requires { IsCounted 0 families.now }
    ensures { result ≡ length (rows_of families.now) }
{
    files_before(families, families.len())
}

// How many files are before those of a directory.
pub(crate) fn first_of(families: &[FamilyBox], directory: &[u8]) -> usize
    requires families { ascends by_family families.now ≡ true }
    requires counted { IsCounted 0 families.now }
    ensures { result ≡ first_in directory.now (rows_of families.now) }
{
    let mut probes = 0;
    let n = seek(
        families,
        |family| family.key().directory.as_bytes().cmp(directory).is_lt(),
        &mut probes,
    );
    files_before(families, n)
}

// The family that the file with this number is under, and which of its files it is. How often a family is asked is
// added to `probes`.
fn place_of(families: &[FamilyBox], i: usize, probes: &mut u64) -> (usize, usize)
    requires counted { IsCounted 0 families.now }
    requires within { i < length (rows_of families.now) }
    requires few { length (rows_of families.now) ≤ ROW_LIMIT }
    ensures family { result.0 < length families.now }
    ensures file { (d : FamilyValue) → result.1 < length (get_or families.now result.0 d).gens.files }
    ensures number { length (rows_of (take result.0 families.now)) + result.1 ≡ i }
    ensures later { probes.old ≤ probes.new }
    ensures few { 2 ^ (probes.new - probes.old) ≤ 2 * length families.now + 1 }
{
    let after = i + 1;
    let n = seek(families, |family| family.end() < after, probes);
    (n, i - files_before(families, n))
}

// The file with this number. How often a family is asked is added to `probes`.
pub(crate) fn row_at<'a>(families: &'a [FamilyBox], i: usize, probes: &mut u64) -> RowView<'a>
    requires counted { IsCounted 0 families.now }
    requires within { i < length (rows_of families.now) }
    requires few { length (rows_of families.now) ≤ ROW_LIMIT }
    ensures row { slice_get (rows_of families.now) i ≡ Some (row_of_view result) }
    ensures later { probes.old ≤ probes.new }
    ensures few { 2 ^ (probes.new - probes.old) ≤ 2 * length families.now + 1 }
{
    let (n, at) = place_of(families, i, probes);
    families[n].file_at(at)
}

// Changes one thing of the file with this number.
pub(crate) fn remark_file(families: &mut [FamilyBox], i: usize, remark: Remark)
    requires families { ascends by_family families.old ≡ true }
    requires counted { IsCounted 0 families.old }
    requires within { i < length (rows_of families.old) }
    requires few { length (rows_of families.old) ≤ ROW_LIMIT }
    ensures rows { (d : Filed) → rows_of families.new
        ≡ set (rows_of families.old) i (with_remark remark (get_or (rows_of families.old) i d)) }
    ensures rooms { rooms_of families.new ≡ rooms_of families.old }
    ensures ascend { ascends by_family families.new ≡ true }
    ensures counted { IsCounted 0 families.new }
{
    let (n, at) = place_of(families, i, &mut 0);
    families[n].remark(at, remark);
}

// Adds a file that goes after all others.
pub(crate) fn push(families: &mut Vec<FamilyBox>, alloc: Global, row: Row) -> Result<(), NoMemory>
    requires families { AreFamilies families.old.items }
    requires last { ascends by_row (rows_of families.old.items ++ row ∷ []) ≡ true }
    requires few { length (rows_of families.old.items) < ROW_LIMIT }
    requires short { length row.file.bytes ≤ FILE_LIMIT }
    requires number { is_numbered row.file.generation ≡ true }
    ensures families { AreFamilies families.new.items }
    ensures rows { OnOk result (rows_of families.new.items ≡ rows_of families.old.items ++ row ∷ []) }
    ensures refused { OnErr result (rows_of families.new.items ≡ rows_of families.old.items) }
{
    let at = enter(families, alloc, &row.key)?;
    let inserted = families[at].insert(row.file);
    count(families, at);
    inserted?;
    Ok(())
}
