// A store that is filled part by part.
ghost use Rattle.std.specs.Prelude.{◌≡◌, true, OnErr, OnOk, map};
ghost use Rattle.ex_store.specs.Draft.{and_directory, and_logical, and_request, and_row, empty_state, kept_by, kept_by_directories};
ghost use Rattle.ex_store.specs.Views.{queue_entry};
ghost use Rattle.ex_store.specs.State.{has_directory};
ghost use Rattle.ex_store.specs.WellFormed.{IsDraft};

use crate::directories::Directories;
use crate::files::Files;
use crate::firsts::firsts_in;
use crate::logical_names::LogicalNames;
use crate::{Definition, Directory, Key, Parts, QueueEntry, Queued, Row, Store};
use cm_io::NoMemory;
use cm_text::Name;
use ex_generations::{File, Remark};
use std::alloc::Global;
use std::marker::Model;

// Has each file keep as many generations as its directory.
fn keep_by(directories: &Directories, files: &mut Files)
    ensures { files.new.rows ≡ map (kept_by directories.now.list) files.old.rows }
{
    for i in 0..files.len() {
        let keep = directories.retention_of(files.row_at(i).directory.as_str());
        files.remark(i, Remark::Keep(keep));
    }
}

/// A store under way. It is filled part by part, those of each kind in their order, and then is done. Contracts see it
/// as a state; the empty name is where no directory is connected yet.
#[derive(Drop)]
pub struct Draft {
    alloc: Global,
    directories: Directories,
    connected: Name,
    logical: LogicalNames,
    files: Files,
    queue: Vec<QueueEntry>,
}

impl Model for Draft {
    ghost use Rattle.ex_store.specs.State.{State};
    ghost use Rattle.ex_store.specs.WellFormed.{IsDraft};

    ghost Value = { State };

    ghost view = { λ it. record {
      directories = it.directories.list;
      connected = it.connected;
      logical = it.logical.list;
      rows = it.files.rows;
      queue = it.queue.items;
    } };

    ghost invariant = { λ it. IsDraft (record {
      directories = it.directories.list;
      connected = it.connected;
      logical = it.logical.list;
      rows = it.files.rows;
      queue = it.queue.items;
    }) };
}

impl Draft {
    /// A draft of nothing.
    pub fn new(alloc: Global) -> Draft
        ensures { result ≡ empty_state }
    {
        Draft {
            alloc,
            directories: Directories::new(alloc),
            connected: Name::new(""),
            logical: LogicalNames::new(alloc),
            files: Files::new(alloc),
            queue: Vec::new(alloc),
        }
    }

    /// Adds a directory that keeps so many generations of each file.
    pub fn directory(&mut self, name: &str, retention: u8) -> Result<(), NoMemory>
        requires { IsDraft (and_directory (record { name = name.now; retention = retention }) self.old) }
        ensures added { OnOk result
            (self.new ≡ and_directory (record { name = name.now; retention = retention }) self.old) }
        ensures refused { OnErr result (self.new ≡ self.old) }
    {
        let name = Name::new(name);
        self.directories.push(Directory { name, retention })?;
        Ok(())
    }

    /// Connects to a directory that was added.
    pub fn connect(&mut self, name: &str)
        requires { has_directory name.now self.old.directories ≡ true }
        ensures { self.new ≡ record self.old { connected = name.now } }
    {
        // A use of a field, for the proof: the directories' names have at most 39 bytes.
        let _ = &self.directories;
        self.connected = Name::new(name);
    }

    /// Adds a logical name for a directory.
    pub fn logical(&mut self, name: &str, directory: &str) -> Result<(), NoMemory>
        requires { IsDraft (and_logical (record { name = name.now; directory = directory.now }) self.old) }
        ensures added { OnOk result
            (self.new ≡ and_logical (record { name = name.now; directory = directory.now }) self.old) }
        ensures refused { OnErr result (self.new ≡ self.old) }
    {
        let name = Name::new(name);
        let directory = Name::new(directory);
        self.logical.push(Definition { name, directory })?;
        Ok(())
    }

    /// Adds a file of a name and a type in a directory.
    pub fn file(
        &mut self,
        directory: &str,
        name: &str,
        kind: &str,
        file: File,
    ) -> Result<(), NoMemory>
        requires { IsDraft (and_row (record {
          key = record { directory = directory.now; name = name.now; kind = kind.now };
          file = file;
        }) self.old) }
        ensures added { OnOk result (self.new ≡ and_row (record {
          key = record { directory = directory.now; name = name.now; kind = kind.now };
          file = file;
        }) self.old) }
        ensures refused { OnErr result (self.new ≡ self.old) }
    {
        let key = Key {
            directory: Name::new(directory),
            name: Name::new(name),
            kind: Name::new(kind),
        };
        self.files.push(self.alloc, Row { key, file })?;
        Ok(())
    }

    /// Adds an entry to the print queue.
    pub fn request(&mut self, request: Queued<'_>) -> Result<(), NoMemory>
        requires { IsDraft (and_request (queue_entry request) self.old) }
        ensures added { OnOk result (self.new ≡ and_request (queue_entry request.entry) self.old) }
        ensures refused { OnErr result (self.new ≡ self.old) }
    {
        let entry = request.owned();
        self.queue.push(entry)?;
        Ok(())
    }

    /// Has each file that was added keep as many generations as its directory.
    pub fn keep_by_directories(&mut self)
        ensures { self.new ≡ kept_by_directories self.old }
    {
        keep_by(&self.directories, &mut self.files);
    }

    /// All that was added, and the connected directory.
    pub fn parts(&self) -> Parts<'_>
        ensures value { result ≡ self.now }
        ensures lawful { IsDraft self.now }
    {
        Parts {
            directories: &self.directories,
            connected: &self.connected,
            logical: &self.logical,
            files: &self.files,
            queue: &self.queue,
        }
    }

    /// The store, once a directory is connected.
    pub fn done(self) -> Store
        requires { has_directory self.connected self.directories ≡ true }
        ensures { result.state ≡ self }
    {
        let firsts = firsts_in(&self.directories, &self.files);
        Store {
            alloc: self.alloc,
            directories: self.directories,
            connected: self.connected,
            logical: self.logical,
            files: self.files,
            firsts,
            queue: self.queue,
        }
    }
}
