// A plan that is ready to be done.
ghost use Rattle.std.specs.Prelude.{◌≡◌, ◌<◌, ◌≤◌, true, length, slice_get, Some};
ghost use Rattle.std.specs.List.{list_all};
ghost use Rattle.ex_store.specs.declared.limits.TheConstants.{ROW_LIMIT};
ghost use Rattle.ex_store.specs.Entries.{is_kept};
ghost use Rattle.ex_store.specs.Views.{name_pair};
ghost use Rattle.ex_store.specs.Ready.{is_lawful, is_reading_within, no_change, of_definition, of_directory, of_entries, of_files};

use crate::{Definition, Directory, FullName, NamePair, Pair, Place, QueueEntry, Row};
use ex_generations::Bytes;
use std::alloc::Global;
use std::marker::Model;

/// One change of the files of a store.
#[derive(Debug, Drop)]
pub enum RowChange {
    /// A file is added, and then all unmarked generations of its name and type but as many as it keeps are marked.
    Add(Row),
    /// A file is taken out and added under another name, unmarked, with all else that it has.
    Move(NamePair),
    /// A file is given another moment and other bytes.
    Fill {
        target: FullName,
        moment: u64,
        bytes: Bytes,
    },
}

/// Files that are read, and when.
#[derive(Debug, Drop)]
pub struct Reading {
    /// Which files.
    pub files: Place,
    /// The moment, in seconds since 1-JAN-1970.
    pub moment: u64,
}

/// A plan that is ready to be done by [`Store::apply`](crate::Store::apply). Contracts see what it is to change.
#[derive(Drop)]
pub struct Ready {
    pub(crate) directory: Option<Directory>,
    pub(crate) definition: Option<Definition>,
    pub(crate) reading: Option<Reading>,
    pub(crate) row_changes: Vec<RowChange>,
    pub(crate) entries: Vec<QueueEntry>,
    pub(crate) pairs: Vec<NamePair>,
}

impl Model for Ready {
    ghost use Rattle.ex_store.specs.Ready.{AreLawful, Change};

    ghost Value = { Change };

    ghost view = { λ it. record {
      directory = it.directory;
      definition = it.definition;
      reading = it.reading;
      row_changes = it.row_changes.items;
      entries = it.entries.items;
      pairs = it.pairs.items;
    } };

    ghost invariant = { λ it. AreLawful it.definition it.reading it.row_changes.items it.pairs.items };
}

impl Ready {
    // Nothing is to be done.
    fn new(alloc: Global) -> Ready
        ensures { result ≡ no_change }
    {
        Ready {
            directory: None,
            definition: None,
            reading: None,
            row_changes: Vec::new(alloc),
            entries: Vec::new(alloc),
            pairs: Vec::new(alloc),
        }
    }

    // A directory is to be made, or is to keep another number of generations.
    pub(crate) fn of_directory(alloc: Global, directory: Directory) -> Ready
        ensures { result ≡ of_directory directory }
    {
        let mut ready = Ready::new(alloc);
        ready.directory = Some(directory);
        ready
    }

    // A logical name is to be defined.
    pub(crate) fn of_definition(alloc: Global, definition: Definition) -> Ready
        requires { is_kept definition ≡ true }
        ensures { result ≡ of_definition definition }
    {
        let mut ready = Ready::new(alloc);
        ready.definition = Some(definition);
        ready
    }

    // Files are to be changed, and those of a place are read before.
    pub(crate) fn of_files(
        alloc: Global,
        reading: Option<Reading>,
        row_changes: Vec<RowChange>,
        pairs: Vec<NamePair>,
    ) -> Ready
        requires within { is_reading_within reading ≡ true }
        requires few { length pairs.items ≤ ROW_LIMIT }
        requires lawful { list_all is_lawful row_changes.items ≡ true }
        ensures { result ≡ of_files reading row_changes.items pairs.items }
    {
        let mut ready = Ready::new(alloc);
        ready.reading = reading;
        ready.row_changes = row_changes;
        ready.pairs = pairs;
        ready
    }

    // Entries are to be queued.
    pub(crate) fn of_entries(alloc: Global, entries: Vec<QueueEntry>, pairs: Vec<NamePair>) -> Ready
        requires { length pairs.items ≤ ROW_LIMIT }
        ensures { result ≡ of_entries entries.items pairs.items }
    {
        let mut ready = Ready::new(alloc);
        ready.entries = entries;
        ready.pairs = pairs;
        ready
    }

    /// How many pairs of files there are: one for each source of a copy, a renaming or an appending, and one for each
    /// file that is printed, in ascending order of the files; one for a file that is written; and none for a directory
    /// or a logical name.
    pub fn pairs(&self) -> u32
        ensures { result ≡ length self.now.pairs }
    {
        self.pairs.len() as u32
    }

    /// One of the pairs of files: which one is taken, and which one is made of it. A file that is written
    /// or printed is both.
    pub fn pair(&self, i: u32) -> Pair<'_>
        requires { i < length self.now.pairs }
        ensures { slice_get self.now.pairs i ≡ Some (name_pair result) }
    {
        self.pairs[i as usize].lent()
    }
}
