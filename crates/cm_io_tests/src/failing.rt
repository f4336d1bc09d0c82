// What fails in a run over a store, and how the run ends then.
//
// The host holds the file IN, and the run writes the file OUT.
ghost use Rattle.std.specs.Prelude.{◌≡◌, ◌↔◌, [], codes, false, IfOk, IsTrue, None, Some};
ghost use Rattle.std.specs.Option.{option_copied};
ghost use Rattle.cm_io.specs.HeldFiles.{files_of};
ghost use Rattle.cm_io_tests.specs.Fails.{calls_that_fail, faults_at, fault_place, is_host_fault};
ghost use Rattle.cm_io_tests.specs.Image.{is_lost};
ghost use Rattle.cm_io_tests.specs.Texts.{meaning};

use crate::part_sink::{Part, PartSink};
use crate::pieces::count_calls;
use crate::text::bytes_of;
use crate::trace::Faults;
use cm_io::{MemHost, NoMemory};
use std::alloc::{AllocError, Global};

// The room of OUT.
const ROOM: u32 = 512;

const HOST_FAULT: &[u8] = b"?Host fault\r\n";

/// One call of the outside that fails, of each object: the get, the put on the screen, that on the log, and the call of
/// the host with these numbers, from 0 on. A put that fails takes this part.
#[derive(Clone, Copy, Debug, PartialEq, Eq)]
pub struct Failing {
    pub get: Option<u32>,
    pub screen: Option<usize>,
    pub log: Option<usize>,
    pub part: Part,
    pub call: Option<u32>,
}

/// No call fails.
pub const NOTHING: Failing = Failing {
    get: None,
    screen: None,
    log: None,
    part: Part::Nothing,
    call: None,
};

impl Failing {
    /// Where a trace is cut by this: the screen, and the log if there is one, are those of the whole run, which tell
    /// where each put begins.
    pub fn faults(&self, screen: &PartSink, log: Option<&PartSink>) -> Faults
        ensures { result ≡ faults_at self.now screen.now (option_copied log.entry) }
    {
        Faults {
            gets: gets_before(self.get),
            screen: held_after(Some(screen), self.screen, self.part),
            log: held_after(log, self.log, self.part),
        }
    }

    /// A host that holds IN with this image, and fails at this call.
    pub fn host(&self, alloc: Global, image: &str) -> Result<MemHost, NoMemory>
        ensures { IfOk result (λ host. host ≡ record {
          input_name = codes "IN";
          input = Some (meaning image.now);
          output_name = [];
          output = None;
          room = ROOM;
          is_open = false;
          calls = 0;
          loads = 0;
          creates = 0;
          fails = calls_that_fail self.now.call;
          faults = 0;
        }) }
    {
        let input = bytes_of(alloc, image)?;
        match self.call {
            Some(call) => MemHost::new(alloc, "IN", Some(&input), ROOM, &[call]),
            None => MemHost::new(alloc, "IN", Some(&input), ROOM, &[]),
        }
    }

    /// Whether the call of the host is one that loads or saves, where this image is saved.
    pub fn loses(&self, image: &[u8]) -> bool
        ensures { result ≡ is_lost self.now.call image.now }
    {
        match self.call {
            Some(call) => u64::from(call) < count_calls(image),
            None => false,
        }
    }

    /// Whether this is what is shown where IN could not be read: a screen that fails has a beginning of the message.
    #[tactic(auto, unfolding(crate::specs::Fails::host_fault))]
    pub fn is_host_fault(&self, shown: &[u8]) -> bool
        ensures { result ≡ is_host_fault self.now.screen shown.now }
    {
        match self.screen {
            Some(_) => HOST_FAULT.starts_with(shown),
            None => shown == HOST_FAULT,
        }
    }
}

// How many bytes a sink holds where this put takes a part alone, if there is the sink and a put that fails.
fn held_after(sink: Option<&PartSink>, put: Option<usize>, part: Part) -> Option<usize>
    ensures { result ≡ fault_place (option_copied sink.entry) put part }
{
    match (sink, put) {
        (Some(sink), Some(put)) => sink.held_after(put, part),
        _ => None,
    }
}

// How many gets come before one that fails.
fn gets_before(get: Option<u32>) -> Option<usize>
    ensures { result ≡ get }
{
    match get {
        Some(get) => Some(get as usize),
        None => None,
    }
}

/// Whether IN has this image still.
pub fn has_image(alloc: Global, host: &MemHost, image: &str) -> Result<bool, AllocError>
    ensures { IfOk result (λ it. IsTrue it ↔ (files_of host.now (codes "IN") ≡ Some (meaning image.now))) }
{
    let input = bytes_of(alloc, image)?;
    Ok(host.file("IN") == Some(input.as_slice()))
}
