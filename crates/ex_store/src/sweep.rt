// What is told of all files, by family, and what is done with those of one directory.
ghost use Rattle.std.specs.Prelude.{◌≡◌, ◌+◌, ◌^◌, ◌≤◌, ◌<◌, nat_le, true, length};
ghost use Rattle.std.specs.List.{list_all};
ghost use Rattle.cm_lists.specs.Ascent.{ascends};
ghost use Rattle.ex_generations.specs.declared.file.TheConstants.{FILE_LIMIT};
ghost use Rattle.ex_generations.specs.Generations.{marked, pages, unmarked};
ghost use Rattle.ex_store.specs.declared.limits.TheConstants.{ROW_LIMIT, STORE_LIMIT};
ghost use Rattle.ex_store.specs.Families.{by_family, bytes_of, is_under_directory, rooms_of, rows_of};
ghost use Rattle.ex_store.specs.Rows.{expunged, is_short, pages_in, pages_marked, total};

use crate::family::FamilyBox;
use crate::page_count;
use ex_generations::File;

// So many bytes, and those of some files.
fn add_bytes(files: &[File], before: usize) -> usize
    requires { before + bytes_of files.now ≤ STORE_LIMIT }
    ensures { result ≡ before + bytes_of files.now }
{
    let mut all = before;
    for file in files {
        all += file.bytes.len();
    }
    all
}

// The bytes of all files together.
pub(crate) fn total(families: &[FamilyBox]) -> usize
    requires { total (rows_of families.now) ≤ STORE_LIMIT }
    ensures { result ≡ total (rows_of families.now) }
{
    let mut all = 0;
    for family in families {
        all = add_bytes(family.files(), all);
    }
    all
}

impl FamilyBox {
    // Whether it is one of this directory.
    fn is_in(&self, directory: &[u8]) -> bool
        ensures { result ≡ is_under_directory directory.now self.now }
    {
        self.key().directory.as_bytes().cmp(directory).is_eq()
    }

    // Expunges its files, and tells how many pages they had.
    fn expunge(&mut self) -> u32
        ensures kept { self.new ≡ record self.old {
          gens = record self.old.gens { files = unmarked self.old.gens.files };
        } }
        ensures pages { result ≡ pages (marked self.old.gens.files) }
    {
        self.family.gens.expunge()
    }
}

// Expunges the files of a directory, and tells how many pages they had.
pub(crate) fn drop_marked(families: &mut [FamilyBox], directory: &[u8]) -> u32
    requires families { ascends by_family families.old ≡ true }
    requires few { length (rows_of families.old) ≤ ROW_LIMIT }
    requires short { list_all is_short (rows_of families.old) ≡ true }
    ensures rows { rows_of families.new ≡ expunged directory.now (rows_of families.old) }
    ensures pages { result ≡ pages_marked directory.now (rows_of families.old) }
    ensures ascend { ascends by_family families.new ≡ true }
    ensures rooms { rooms_of families.new ≡ rooms_of families.old }
{
    let mut pages = 0;
    for family in families.iter_mut() {
        if !family.is_in(directory) {
            continue;
        }
        pages += family.expunge();
    }
    pages
}

// Drops the families that have no file.
pub(crate) fn drop_empty(families: &mut Vec<FamilyBox>)
    requires { ascends by_family families.old.items ≡ true }
    ensures rows { rows_of families.new.items ≡ rows_of families.old.items }
    ensures ascend { ascends by_family families.new.items ≡ true }
    ensures lean { length families.new.items ≤ length (rows_of families.old.items) }
{
    families.retain(|family| !family.files().is_empty());
}

// The pages of some files, after so many.
fn add_pages(files: &[File], before: u32) -> u32
    requires short { list_all (λ file. nat_le (length file.bytes) FILE_LIMIT) files.now ≡ true }
    requires few { before + pages files.now < 2 ^ 32 }
    ensures { result ≡ before + pages files.now }
{
    let mut all = before;
    for file in files {
        all += page_count(&file.bytes);
    }
    all
}

// The pages of a directory's files.
pub(crate) fn pages_in(families: &[FamilyBox], directory: &[u8]) -> u32
    requires few { length (rows_of families.now) ≤ ROW_LIMIT }
    requires short { list_all is_short (rows_of families.now) ≡ true }
    ensures { result ≡ pages_in directory.now (rows_of families.now) }
{
    let mut pages = 0;
    for family in families {
        if !family.is_in(directory) {
            continue;
        }
        pages = add_pages(family.files(), pages);
    }
    pages
}
