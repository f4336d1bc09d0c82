// A host in memory.
ghost use Rattle.std.specs.Prelude.{◌≡◌, ◌≤◌, ◌↔◌, ℕ, true, false, List, [], None, IsTrue, IfOk};
ghost use Rattle.std.specs.Option.{option_map};
ghost use Rattle.cm_io.specs.Fault.{PutCause, next_count};
ghost use Rattle.cm_io.specs.Host.{KeepsOthers, Creates, Writes};
ghost use Rattle.cm_io.specs.Loading.{Loads, IsWithin, LoadCause};
ghost use Rattle.cm_io.specs.HeldFiles.{is_listed, closed_at, after_load, after_create, after_write, after_close};

use crate::fault::raised;
use crate::reserved::Reserved;
use crate::{Host, Loaded, NoMemory, Put};
use arrayvec::ArrayString;
use std::alloc::Global;
use std::marker::Model;

/// The most bytes of the name of a file that is created in memory.
pub const FILE_NAME_LIMIT: usize = 255;

// Whether the output was created, and whether it is open.
#[derive(Clone, Copy, PartialEq, Eq)]
pub(crate) enum Stage {
    Absent,
    Open,
    Closed,
}

/// A host that holds its files in memory: at most one that is there from the beginning, the input,
/// and one that is created, the output, whose name has at most 255 bytes and for which a room is
/// reserved. The calls of its methods are numbered from 0, and some may be set to fail.
#[derive(Drop)]
pub struct MemHost {
    input_name: Vec<u8>,
    input: Option<Vec<u8>>,
    output_name: ArrayString<FILE_NAME_LIMIT>,
    output: Reserved,
    stage: Stage,
    calls: u64,
    loads: u64,
    creates: u64,
    fails: Vec<u32>,
    faults: u64,
}

impl Model for MemHost {
    ghost use Rattle.std.specs.Prelude.{option_map};
    ghost use Rattle.cm_io.specs.HeldFiles.{HostState, output_at, is_open_at};

    ghost Value = { HostState };

    ghost view = { λ host. record {
      input_name = host.input_name.items;
      input = option_map (λ bytes. bytes.items) host.input;
      output_name = host.output_name.bytes;
      output = output_at host.stage host.output.bytes;
      room = host.output.room;
      is_open = is_open_at host.stage;
      calls = host.calls;
      loads = host.loads;
      creates = host.creates;
      fails = host.fails.items;
      faults = host.faults;
    } };
}

impl MemHost {
    ghost use Rattle.cm_io.specs.HeldFiles.{files_of};

    /// A host with the input of this name, if there are bytes for it, and room for an output. The
    /// calls with the numbers `fails` fail.
    pub fn new(
        alloc: Global,
        name: &str,
        bytes: Option<&[u8]>,
        room: u32,
        fails: &[u32],
    ) -> Result<MemHost, NoMemory>
        ensures host { IfOk result (λ host. host ≡ record {
          input_name = name.now;
          input = option_map (λ bytes. bytes.now) bytes.entry;
          output_name = [];
          output = None;
          room = room;
          is_open = false;
          calls = 0;
          loads = 0;
          creates = 0;
          fails = fails.now;
          faults = 0;
        }) }
    {
        let input = match bytes {
            Some(bytes) => Some(bytes.to_vec(alloc)?),
            None => None,
        };
        Ok(MemHost {
            input_name: name.as_bytes().to_vec(alloc)?,
            input,
            output_name: ArrayString::new(),
            output: Reserved::new(alloc, room as usize)?,
            stage: Stage::Absent,
            calls: 0,
            loads: 0,
            creates: 0,
            fails: fails.to_vec(alloc)?,
            faults: 0,
        })
    }

    /// The content of the output, if one was created.
    pub fn output(&self) -> Option<&[u8]>
        ensures { option_map (λ bytes. bytes.now) result ≡ self.now.output }
    {
        match self.stage {
            Stage::Absent => None,
            Stage::Open | Stage::Closed => Some(self.output.bytes()),
        }
    }

    /// What a name has, if anything.
    pub fn file(&self, name: &str) -> Option<&[u8]>
        ensures { option_map (λ bytes. bytes.now) result ≡ files_of self.now name.now }
    {
        if self.stage != Stage::Absent && name == self.output_name.as_str() {
            return Some(self.output.bytes());
        }
        if name.as_bytes() == self.input_name.as_slice() {
            return match &self.input {
                Some(bytes) => Some(bytes.as_slice()),
                None => None,
            };
        }
        None
    }
}

impl Host for MemHost {
    ghost use Rattle.cm_io.specs.HeldFiles.{files_of, CanCreate, CanWrite};

    ghost tells = { true };

    ghost files = { files_of };

    ghost is_open = { λ host. host.is_open };

    ghost target = { λ host. host.output_name };

    ghost loads = { λ host. host.loads };

    ghost creates = { λ host. host.creates };

    ghost faults = { λ host. host.faults };

    fn load(&mut self, alloc: Global, name: &str, limit: u32) -> Loaded
        ensures bytes { IsTrue true → Loads (files_of self.old name.now) limit result }
        ensures within { IsWithin limit result }
        ensures files { IsTrue true
            → (name : List ℕ) → files_of self.new name ≡ files_of self.old name }
        ensures open { self.new.is_open ≡ self.old.is_open }
        ensures target { IsTrue true → self.new.output_name ≡ self.old.output_name }
        ensures asked { self.new.loads ≡ next_count self.old.loads }
        ensures creates { self.new.creates ≡ self.old.creates }
        ensures later { self.old.faults ≤ self.new.faults }
        ensures cause { LoadCause self.old.faults self.new.faults result }
        ensures failed { (result ≡ Loaded.Failed) ↔ IsTrue (is_listed self.old.fails self.old.calls) }
        ensures leaves { self.new ≡ after_load self.old }
    {
        let is_listed = is_listed(&self.fails, self.calls);
        self.calls = raised(self.calls);
        self.loads = raised(self.loads);
        if is_listed {
            self.faults = raised(self.faults);
            return Loaded::Failed;
        }
        let Some(bytes) = self.file(name) else {
            return Loaded::Absent;
        };
        if bytes.len() > limit as usize {
            return Loaded::TooLarge;
        }
        match bytes.to_vec(alloc) {
            Ok(bytes) => Loaded::Bytes(bytes),
            Err(_) => Loaded::NoMemory,
        }
    }

    fn create(&mut self, name: &str) -> Put
        ensures opens { IsTrue self.new.is_open ↔ (result ≡ Put.Done) }
        ensures target { IsTrue true → result ≡ Put.Done → self.new.output_name ≡ name.now }
        ensures file { IsTrue true
            → Creates (files_of self.old name.now) (files_of self.new name.now) result }
        ensures others { IsTrue true → KeepsOthers name.now (files_of self.old) (files_of self.new) }
        ensures asked { self.new.creates ≡ next_count self.old.creates }
        ensures loads { self.new.loads ≡ self.old.loads }
        ensures later { self.old.faults ≤ self.new.faults }
        ensures cause { PutCause self.old.faults self.new.faults result }
        ensures done { (result ≡ Put.Done) ↔ CanCreate self.old name.now }
        ensures leaves { self.new ≡ after_create self.old name.now result }
    {
        let is_listed = is_listed(&self.fails, self.calls);
        self.calls = raised(self.calls);
        self.creates = raised(self.creates);
        let is_free = self.stage == Stage::Absent || self.output_name.as_str() == name;
        if is_listed || !is_free || name.len() > FILE_NAME_LIMIT {
            self.stage = closed(self.stage);
            self.faults = raised(self.faults);
            return Put::Failed;
        }
        self.output_name.clear();
        self.output_name.push_str(name);
        self.output.clear();
        self.stage = Stage::Open;
        Put::Done
    }

    #[tactic(auto, using(crate::proofs::Appends::appends_nothing, crate::proofs::Appends::appends_prefix,))]
    fn write(&mut self, bytes: &[u8]) -> Put
        requires { IsTrue self.old.is_open }
        ensures stays_open { IsTrue self.new.is_open }
        ensures target { IsTrue true → self.new.output_name ≡ self.old.output_name }
        ensures file { IsTrue true → Writes (files_of self.old self.old.output_name)
            (files_of self.new self.old.output_name) bytes.now result }
        ensures others { IsTrue true
            → KeepsOthers self.old.output_name (files_of self.old) (files_of self.new) }
        ensures loads { self.new.loads ≡ self.old.loads }
        ensures creates { self.new.creates ≡ self.old.creates }
        ensures later { self.old.faults ≤ self.new.faults }
        ensures cause { PutCause self.old.faults self.new.faults result }
        ensures done { (result ≡ Put.Done) ↔ CanWrite self.old bytes.now }
        ensures leaves { self.new ≡ after_write self.old bytes.now result }
    {
        let is_listed = is_listed(&self.fails, self.calls);
        self.calls = raised(self.calls);
        if is_listed {
            self.faults = raised(self.faults);
            return Put::Failed;
        }
        if self.output.append(bytes) {
            return Put::Done;
        }
        self.faults = raised(self.faults);
        Put::Failed
    }

    fn close(&mut self) -> Put
        requires { IsTrue self.old.is_open }
        ensures closes { self.new.is_open ≡ false }
        ensures files { IsTrue true
            → (name : List ℕ) → files_of self.new name ≡ files_of self.old name }
        ensures loads { self.new.loads ≡ self.old.loads }
        ensures creates { self.new.creates ≡ self.old.creates }
        ensures later { self.old.faults ≤ self.new.faults }
        ensures cause { PutCause self.old.faults self.new.faults result }
        ensures done { (result ≡ Put.Done) ↔ (is_listed self.old.fails self.old.calls ≡ false) }
        ensures leaves { self.new ≡ after_close self.old result }
    {
        let is_listed = is_listed(&self.fails, self.calls);
        self.calls = raised(self.calls);
        self.stage = closed(self.stage);
        if is_listed {
            self.faults = raised(self.faults);
            return Put::Failed;
        }
        Put::Done
    }
}

// The stage once the output is closed, if it was open.
fn closed(stage: Stage) -> Stage
    ensures { result ≡ closed_at stage }
{
    match stage {
        Stage::Absent => Stage::Absent,
        Stage::Open | Stage::Closed => Stage::Closed,
    }
}

// Whether the call with this number is to fail.
fn is_listed(fails: &[u32], call: u64) -> bool
    ensures { result ≡ is_listed fails.now call }
{
    fails.iter().any(|listed| u64::from(*listed) == call)
}
