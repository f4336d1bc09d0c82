// The logical names of a store.
ghost use Rattle.std.specs.Prelude.{ℕ, ◌≡◌, ◌-◌, ◌<◌, ◌≤◌, [], ◌∷◌, ◌++◌, List, true, false, not, filter, length, map, option_copied, slice_get, Some, IfNone, IfSome, OnErr, OnOk};
ghost use Rattle.std.specs.Char.{to_ascii_uppercase};
ghost use Rattle.std.specs.Str.{IsAscii};
ghost use Rattle.cm_lists.specs.Ascent.{ascends};
ghost use Rattle.cm_text.specs.Case.{equals};
ghost use Rattle.cm_text.specs.declared.name.TheConstants.{NAME_LIMIT};
ghost use Rattle.ex_store.specs.Defining.{by_definition, with_definition};
ghost use Rattle.ex_store.specs.Entries.{directory_for, is_kept, is_kept_name};
ghost use Rattle.ex_store.specs.Views.{definition_of_view};
ghost use Rattle.ex_store.specs.State.{has_definition};

use crate::{Definition, DefinitionView};
use cm_io::NoMemory;
use cm_text::{NAME_LIMIT, Name};
use indexmap::IndexMap;
use std::alloc::Global;
use std::marker::Model;

// A text in upper case.
#[tactic(auto, using(cm_lists::proofs::Ascii::up_more, cm_lists::proofs::Ascii::up_all))]
pub(crate) fn upper(text: &[u8]) -> Name
    requires short { length text.now ≤ NAME_LIMIT }
    requires ascii { IsAscii text.now }
    ensures { result ≡ map to_ascii_uppercase text.now }
{
    let mut upper = Name::new("");
    for byte in text {
        upper.push(byte.to_ascii_uppercase());
    }
    upper
}

// The name under which a text is kept; None where it is equal to no name that is.
fn kept(text: &[u8]) -> Option<Name>
    ensures kept { IfSome result (λ name. name ≡ map to_ascii_uppercase text.now) }
    ensures none { IfNone result ((name : List ℕ) → is_kept_name name ≡ true → equals name text.now ≡ false) }
{
    if text.len() > NAME_LIMIT || !text.is_ascii() {
        return None;
    }
    Some(upper(text))
}

// The name of the directory that each logical name stands for, by the logical name in upper case. To how many more room
// is promised is counted here, since the map does not tell it after a removal. Contracts see a list of definitions,
// and that count.
#[derive(Drop)]
pub(crate) struct LogicalNames {
    directories: IndexMap<Name, Name>,
    promised: usize,
}

impl Model for LogicalNames {
    ghost use Rattle.indexmap.specs.IndexMap.{spare};
    ghost use Rattle.ex_store.specs.Entries.{AreKept, definitions_of};
    ghost use Rattle.ex_store.specs.State.{WithSpare};
    ghost use Rattle.ex_store.specs.declared.directory.Definition.{Definition};

    ghost Value = { WithSpare Definition };

    ghost view = { λ it. record { list = definitions_of it.directories.entries; spare = it.promised } };

    ghost invariant = { λ it. AreKept (definitions_of it.directories.entries) it.promised (spare it.directories) };
}

impl LogicalNames {
    // No logical name.
    pub(crate) fn new(alloc: Global) -> LogicalNames
        ensures { result.list ≡ [] }
    {
        LogicalNames {
            directories: IndexMap::new(alloc),
            promised: 0,
        }
    }

    // How many there are.
    pub(crate) fn len(&self) -> usize
        ensures { result ≡ length self.now.list }
    {
        self.directories.len()
    }

    // The logical name with this number.
    pub(crate) fn at(&self, i: usize) -> DefinitionView<'_>
        requires { i < length self.now.list }
        ensures { slice_get self.now.list i ≡ Some (definition_of_view result) }
    {
        let (name, directory) = self.directories.get_index(i).unwrap();
        DefinitionView { name, directory }
    }

    // The name of the directory that a logical name stands for; None where it stands for none. Letters have no case.
    pub(crate) fn find(&self, name: &[u8]) -> Option<&Name>
        ensures { option_copied result ≡ directory_for name.now self.now.list }
    {
        self.directories.get(&kept(name)?)
    }

    // Whether a logical name stands for a directory. Letters have no case.
    pub(crate) fn has(&self, name: &[u8]) -> bool
        ensures { result ≡ has_definition name.now self.now.list }
    {
        self.find(name).is_some()
    }

    // Adds a logical name after those that are below it.
    pub(crate) fn push(&mut self, new: Definition) -> Result<(), NoMemory>
        requires ascend { ascends by_definition (self.old.list ++ new ∷ []) ≡ true }
        requires kept { is_kept new ≡ true }
        ensures added { OnOk result (self.new.list ≡ self.old.list ++ new ∷ []) }
        ensures refused { OnErr result (self.new.list ≡ self.old.list) }
    {
        self.promised = 0;
        self.directories.insert(new.name, new.directory)?;
        Ok(())
    }

    // Makes room for one more.
    pub(crate) fn reserve(&mut self) -> Result<(), NoMemory>
        ensures list { self.new.list ≡ self.old.list }
        ensures room { OnOk result (0 < self.new.spare) }
    {
        self.directories.reserve(1)?;
        self.promised = 1;
        Ok(())
    }

    // Has a logical name stand for its directory, at its place among those that ascend.
    pub(crate) fn define(&mut self, new: Definition)
        requires ascend { ascends by_definition self.old.list ≡ true }
        requires room { 0 < self.old.spare }
        requires kept { is_kept new ≡ true }
        ensures list { self.new.list ≡ with_definition new self.old.list }
        ensures room { self.new.spare ≡ self.old.spare - 1 }
    {
        self.promised -= 1;
        match self.directories.insert_sorted(new.name, new.directory) {
            Ok(_) => {}
            Err(_) => unreachable!(),
        }
    }

    // Takes a logical name away, and tells whether it was there. Letters have no case.
    pub(crate) fn remove(&mut self, name: &[u8]) -> bool
        requires { ascends by_definition self.old.list ≡ true }
        ensures found { result ≡ has_definition name.now self.old.list }
        ensures gone { self.new
            ≡ record self.old { list = filter (λ entry. not (equals entry.name name.now)) self.old.list } }
    {
        match kept(name) {
            Some(name) => self.directories.shift_remove(&name).is_some(),
            None => false,
        }
    }
}
