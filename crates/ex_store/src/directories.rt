// The directories of a store by name.
ghost use Rattle.std.specs.Prelude.{◌≡◌, ◌-◌, ◌<◌, [], ◌∷◌, ◌++◌, true, find, length, option_map, slice_get, None, Some, if◌then◌else◌, OnErr, OnOk};
ghost use Rattle.cm_lists.specs.Ascent.{ascends};
ghost use Rattle.ex_store.specs.Building.{by_directory, with_directory};
ghost use Rattle.ex_store.specs.Views.{directory_of_view};
ghost use Rattle.ex_store.specs.State.{has_directory, is_named, number_of, retention_of};

use crate::key::short;
use crate::{Directory, DirectoryView};
use cm_io::NoMemory;
use cm_text::Name;
use indexmap::IndexMap;
use std::alloc::Global;
use std::marker::Model;

// How many generations each directory keeps, by its name. To how many more room is promised is counted here, since of
// the map it is only known that a new one takes no more than one place. Contracts see a list of directories, and that
// count.
#[derive(Drop)]
pub(crate) struct Directories {
    retentions: IndexMap<Name, u8>,
    promised: usize,
}

impl Model for Directories {
    ghost use Rattle.indexmap.specs.IndexMap.{spare};
    ghost use Rattle.ex_store.specs.Entries.{AreShort, directories_of};
    ghost use Rattle.ex_store.specs.State.{WithSpare};
    ghost use Rattle.ex_store.specs.declared.directory.Directory.{Directory};

    ghost Value = { WithSpare Directory };

    ghost view = { λ it. record { list = directories_of it.retentions.entries; spare = it.promised } };

    ghost invariant = { λ it. AreShort (directories_of it.retentions.entries) it.promised (spare it.retentions) };
}

impl Directories {
    // No directory.
    pub(crate) fn new(alloc: Global) -> Directories
        ensures { result.list ≡ [] }
    {
        Directories {
            retentions: IndexMap::new(alloc),
            promised: 0,
        }
    }

    // How many there are.
    pub(crate) fn len(&self) -> usize
        ensures { result ≡ length self.now.list }
    {
        self.retentions.len()
    }

    // The directory with this number.
    pub(crate) fn at(&self, i: usize) -> DirectoryView<'_>
        requires { i < length self.now.list }
        ensures { slice_get self.now.list i ≡ Some (directory_of_view result) }
    {
        let (name, retention) = self.retentions.get_index(i).unwrap();
        DirectoryView {
            name,
            retention: *retention,
        }
    }

    // How many generations the directory of this name keeps; None where there is none of that name.
    pub(crate) fn retention(&self, name: &str) -> Option<u8>
        ensures { result ≡ option_map (λ directory. directory.retention) (find (is_named name.now) self.now.list) }
    {
        self.retentions.get(&short(name)?).copied()
    }

    // The same, 0 where there is none of that name.
    pub(crate) fn retention_of(&self, name: &str) -> u8
        ensures { result ≡ retention_of name.now self.now.list }
    {
        self.retention(name).unwrap_or(0)
    }

    // Whether there is a directory of this name.
    pub(crate) fn has(&self, name: &str) -> bool
        ensures { result ≡ has_directory name.now self.now.list }
    {
        match short(name) {
            Some(name) => self.retentions.contains_key(&name),
            None => false,
        }
    }

    // The number of the directory of this name; None where there is none of that name.
    pub(crate) fn find(&self, name: &str) -> Option<usize>
        ensures { result ≡ (if has_directory name.now self.now.list
            then Some (number_of name.now self.now.list) else None) }
    {
        self.retentions.get_index_of(&short(name)?)
    }

    // How many directories are before the one of this name; the number of all where there is none.
    pub(crate) fn number_of(&self, name: &str) -> usize
        ensures { result ≡ number_of name.now self.now.list }
    {
        self.find(name).unwrap_or(self.len())
    }

    // Adds a directory after those that are below it.
    pub(crate) fn push(&mut self, new: Directory) -> Result<(), NoMemory>
        requires { ascends by_directory (self.old.list ++ new ∷ []) ≡ true }
        ensures added { OnOk result (self.new.list ≡ self.old.list ++ new ∷ []) }
        ensures refused { OnErr result (self.new.list ≡ self.old.list) }
    {
        // A use of the name, for the proof: it has at most 39 bytes.
        let _ = new.name.as_str();
        self.promised = 0;
        self.retentions.insert(new.name, new.retention)?;
        Ok(())
    }

    // Makes room for one more.
    pub(crate) fn reserve(&mut self) -> Result<(), NoMemory>
        ensures list { self.new.list ≡ self.old.list }
        ensures room { OnOk result (0 < self.new.spare) }
    {
        self.retentions.reserve(1)?;
        self.promised = 1;
        Ok(())
    }

    // Makes a directory, at its place among those that ascend, or has the one of its name keep as many generations.
    pub(crate) fn make(&mut self, new: Directory)
        requires ascend { ascends by_directory self.old.list ≡ true }
        requires room { 0 < self.old.spare }
        ensures list { self.new.list ≡ with_directory new self.old.list }
        ensures room { self.new.spare ≡ self.old.spare - 1 }
    {
        // A use of the name, for the proof: it has at most 39 bytes.
        let _ = new.name.as_str();
        self.promised -= 1;
        match self.retentions.insert_sorted(new.name, new.retention) {
            Ok(_) => {}
            Err(_) => unreachable!(),
        }
    }
}
