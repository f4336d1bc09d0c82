// The files of the system.
ghost use Rattle.std.specs.Prelude.{◌≡◌, false, [], None};

use crate::fault::raised;
use crate::std_held::Held;
use crate::std_load::load_file;
use crate::{Host, Loaded, Put};
use std::alloc::Global;
use std::fs::File;
use std::io::Write;
use std::marker::Model;

/// The files of the system. What is written to a file is held, and leaves in pieces of at most 4096 bytes, or as one
/// where it is longer; `close` writes what is left. So what the system refuses fails at a later write, or at the close.
/// Contracts see whether a file is open, how many loads and creates it was asked, and its faults.
#[derive(Drop)]
pub struct StdHost {
    rt: HostRuntime,
    file: Option<File>,
    held: Held,
    loads: u64,
    creates: u64,
    faults: u64,
}

impl Model for StdHost {
    ghost use Rattle.std.specs.Prelude.{is_some};
    ghost use Rattle.cm_io.specs.Memory.{HostCounts};

    ghost Value = { HostCounts };

    ghost view = { λ host. record {
      is_open = is_some host.file;
      loads = host.loads;
      creates = host.creates;
      faults = host.faults;
    } };
}

impl StdHost {
    /// The files of this system, none open.
    pub fn new(rt: &HostRuntime) -> StdHost
        ensures { result ≡ record { is_open = false; loads = 0; creates = 0; faults = 0 } }
    {
        StdHost {
            rt: *rt,
            file: None,
            held: Held::new(),
            loads: 0,
            creates: 0,
            faults: 0,
        }
    }
}

impl Host for StdHost {
    ghost tells = { false };

    ghost files = { λ _ _. None };

    ghost is_open = { λ host. host.is_open };

    ghost target = { λ _. [] };

    ghost loads = { λ host. host.loads };

    ghost creates = { λ host. host.creates };

    ghost faults = { λ host. host.faults };

    fn load(&mut self, alloc: Global, name: &str, limit: u32) -> Loaded {
        self.loads = raised(self.loads);
        let loaded = load_file(&self.rt, alloc, name, limit);
        if let Loaded::Failed = loaded {
            self.faults = raised(self.faults);
        }
        loaded
    }

    fn create(&mut self, name: &str) -> Put {
        self.creates = raised(self.creates);
        self.held.clear();
        match File::create(&self.rt, name) {
            Ok(file) => {
                self.file = Some(file);
                Put::Done
            }
            Err(_) => {
                self.file = None;
                self.faults = raised(self.faults);
                Put::Failed
            }
        }
    }

    fn write(&mut self, bytes: &[u8]) -> Put {
        let is_written = match &self.file {
            Some(file) => {
                let mut output: &File = file;
                self.held.add(bytes, &mut output)
            }
            None => false,
        };
        if is_written {
            return Put::Done;
        }
        self.faults = raised(self.faults);
        Put::Failed
    }

    fn close(&mut self) -> Put {
        let is_flushed = match &self.file {
            Some(file) => {
                let mut output: &File = file;
                self.held.hand_on(&mut output) && output.flush().is_ok()
            }
            None => false,
        };
        self.file = None;
        if is_flushed {
            return Put::Done;
        }
        self.faults = raised(self.faults);
        Put::Failed
    }
}
