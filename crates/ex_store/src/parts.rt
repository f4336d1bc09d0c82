// The store as flat lists whose elements are lent.
ghost use Rattle.std.specs.Prelude.{◌≡◌, ◌<◌, length, slice_get, Some};
ghost use Rattle.ex_store.specs.Views.{definition_of_view, directory_of_view, row_of_view};
ghost use Rattle.ex_store.specs.State.{has_directory};
ghost use Rattle.ex_store.specs.WellFormed.{IsWellFormed};

use crate::directories::Directories;
use crate::files::Files;
use crate::logical_names::LogicalNames;
use crate::{DefinitionView, DirectoryView, QueueEntry, RowView, Store};
use cm_text::Name;
use std::marker::Model;

/// All that a store holds, as it is lent to one who writes it down, element by element. Contracts see its state.
#[derive(Drop)]
pub struct Parts<'a> {
    pub(crate) directories: &'a Directories,
    pub(crate) connected: &'a Name,
    pub(crate) logical: &'a LogicalNames,
    pub(crate) files: &'a Files,
    pub(crate) queue: &'a [QueueEntry],
}

impl<'a> Model for Parts<'a> {
    ghost use Rattle.ex_store.specs.State.{State};

    ghost Value = { State };

    ghost view = { λ it. record {
      directories = it.directories.now.list;
      connected = it.connected.now;
      logical = it.logical.now.list;
      rows = it.files.now.rows;
      queue = it.queue.now;
    } };
}

impl<'a> Parts<'a> {
    /// How many directories there are.
    pub fn directories(&self) -> usize
        ensures { result ≡ length self.now.directories }
    {
        self.directories.len()
    }

    /// A directory, in ascending order of the names.
    pub fn directory(&self, i: usize) -> DirectoryView<'_>
        requires { i < length self.now.directories }
        ensures { slice_get self.now.directories i ≡ Some (directory_of_view result) }
    {
        self.directories.at(i)
    }

    /// Whether there is a directory of this name.
    pub fn has_directory(&self, name: &str) -> bool
        ensures { result ≡ has_directory name.now self.now.directories }
    {
        self.directories.has(name)
    }

    /// The name of the connected directory.
    pub fn connected(&self) -> &Name
        ensures { result.now ≡ self.now.connected }
    {
        self.connected
    }

    /// How many logical names there are.
    pub fn logicals(&self) -> usize
        ensures { result ≡ length self.now.logical }
    {
        self.logical.len()
    }

    /// A logical name, in ascending order.
    pub fn logical(&self, i: usize) -> DefinitionView<'_>
        requires { i < length self.now.logical }
        ensures { slice_get self.now.logical i ≡ Some (definition_of_view result) }
    {
        self.logical.at(i)
    }

    /// How many files there are, those that are marked deleted too.
    pub fn rows(&self) -> usize
        ensures { result ≡ length self.now.rows }
    {
        self.files.len()
    }

    /// A file, in ascending order of directory, name, type and generation.
    pub fn row(&self, i: usize) -> RowView<'_>
        requires { i < length self.now.rows }
        ensures { slice_get self.now.rows i ≡ Some (row_of_view result) }
    {
        self.files.row_at(i)
    }

    /// The entries of the print queue, in the order in which they came.
    pub fn queue(&self) -> &[QueueEntry]
        ensures { result.now ≡ self.now.queue }
    {
        self.queue
    }
}

impl Store {
    /// All that the store holds: its state, which is well formed.
    pub fn parts(&self) -> Parts<'_>
        ensures value { result ≡ self.now.state }
        ensures lawful { IsWellFormed self.now.state }
    {
        Parts {
            directories: &self.directories,
            connected: &self.connected,
            logical: &self.logical,
            files: &self.files,
            queue: &self.queue,
        }
    }
}
