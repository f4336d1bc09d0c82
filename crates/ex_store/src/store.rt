// The store.
ghost use Rattle.std.specs.Prelude.{◌≡◌, ◌<◌, true, IfOk, Ok, Err, if◌then◌else◌, length, slice_get, Some, option_map};
ghost use Rattle.cm_fields.specs.declared.code.Code.TheVariants.{NoDefinition};
ghost use Rattle.ex_store.specs.Views.{queue_entry};
ghost use Rattle.ex_store.specs.State.{defined, first_state, has_directory, logical_name, undefined};

use crate::directories::Directories;
use crate::files::Files;
use crate::firsts::firsts_in;
use crate::limits::DIRECTORY_LIMIT;
use crate::logical_names::LogicalNames;
use crate::{Directory, Logical, QueueEntry, Queued};
use arrayvec::ArrayVec;
use cm_fields::Code;
use cm_io::NoMemory;
use cm_text::Name;
use std::alloc::Global;
use std::marker::Model;

/// The state of the file machine. Contracts see it as five flat lists and values, for how many more directories and
/// logical names there is room, and for how many files of each name and entries of the queue.
#[derive(Drop)]
pub struct Store {
    pub(crate) alloc: Global,
    pub(crate) directories: Directories,
    pub(crate) connected: Name,
    pub(crate) logical: LogicalNames,
    pub(crate) files: Files,
    // How many files are before those of each directory.
    pub(crate) firsts: ArrayVec<u16, DIRECTORY_LIMIT>,
    pub(crate) queue: Vec<QueueEntry>,
}

impl Model for Store {
    ghost use Rattle.std.specs.Prelude.{vec_capacity};
    ghost use Rattle.ex_store.specs.State.{StoreWithRoom, State};
    ghost use Rattle.ex_store.specs.WellFormed.{IsStore};

    ghost Value = { StoreWithRoom };

    ghost view = { λ it. record {
      state = record {
        directories = it.directories.list;
        connected = it.connected;
        logical = it.logical.list;
        rows = it.files.rows;
        queue = it.queue.items;
      };
      spare_directories = it.directories.spare;
      spare_logical = it.logical.spare;
      family_rooms = it.files.rooms;
      queue_room = vec_capacity it.queue;
    } };

    ghost invariant = { λ it. IsStore (record {
      directories = it.directories.list;
      connected = it.connected;
      logical = it.logical.list;
      rows = it.files.rows;
      queue = it.queue.items;
    }) it.firsts.items };
}

impl Store {
    /// The store that there is first: the directory OPERATOR, which is connected and keeps one generation of each
    /// file, and no file.
    pub fn new(alloc: Global) -> Result<Store, NoMemory>
        ensures { IfOk result (λ store. store.state ≡ first_state) }
    {
        let operator = Directory {
            name: Name::new("OPERATOR"),
            retention: 1,
        };
        let mut directories = Directories::new(alloc);
        directories.push(operator)?;
        let files = Files::new(alloc);
        let firsts = firsts_in(&directories, &files);
        Ok(Store {
            alloc,
            directories,
            connected: Name::new("OPERATOR"),
            logical: LogicalNames::new(alloc),
            files,
            firsts,
            queue: Vec::new(alloc),
        })
    }

    /// Connects to a directory.
    pub fn connect(&mut self, directory: &str)
        requires { has_directory directory.now self.old.state.directories ≡ true }
        ensures { self.new ≡ record self.old { state = record self.old.state { connected = directory.now } } }
    {
        // A use of a field, for the proof: the directories' names have at most 39 bytes.
        let _ = &self.directories;
        self.connected = Name::new(directory);
    }

    /// Takes a logical name away. NoDefinition where it stands for nothing, and then nothing changes. Letters have no
    /// case.
    pub fn undefine(&mut self, name: &str) -> Result<(), Code>
        ensures answer { result ≡ (if defined name.now self.old.state then Ok tt else Err NoDefinition) }
        ensures gone { self.new ≡ record self.old { state = undefined name.now self.old.state } }
    {
        if self.logical.remove(name.as_bytes()) {
            Ok(())
        } else {
            Err(Code::NoDefinition)
        }
    }

    /// How many generations of each file the directory with this number keeps; 0 where it keeps all.
    pub fn retention(&self, directory: u16) -> u8
        requires { directory < length self.now.state.directories }
        ensures { option_map (λ directory. directory.retention) (slice_get self.now.state.directories directory)
            ≡ Some result }
    {
        self.directories.at(usize::from(directory)).retention
    }

    /// How many logical names there are.
    pub fn logicals(&self) -> u16
        ensures { result ≡ length self.now.state.logical }
    {
        self.logical.len() as u16
    }

    /// A logical name, in ascending order.
    pub fn logical_at(&self, i: u16) -> Logical<'_>
        requires { i < length self.now.state.logical }
        ensures { option_map (logical_name self.now.state.directories) (slice_get self.now.state.logical i)
            ≡ Some (record { name = result.name.now; directory = result.directory }) }
    {
        let entry = self.logical.at(usize::from(i));
        Logical {
            name: entry.name.as_str(),
            directory: self.directories.number_of(entry.directory.as_str()) as u16,
        }
    }

    /// How many entries the print queue has.
    pub fn requests(&self) -> u16
        ensures { result ≡ length self.now.state.queue }
    {
        self.queue.len() as u16
    }

    /// An entry of the print queue, in the order in which they came.
    pub fn request(&self, i: u16) -> Queued<'_>
        requires { i < length self.now.state.queue }
        ensures { slice_get self.now.state.queue i ≡ Some (queue_entry result) }
    {
        self.queue[usize::from(i)].lent()
    }
}
