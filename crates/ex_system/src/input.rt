// What a run begins from.
ghost use Rattle.std.specs.Prelude.{◌≡◌, ◌≤◌, ℕ, List, IfErr, IfOk, OnOk, IsTrue, length, Some, option_copied};
ghost use Rattle.ex_system.specs.Disk.{disk_of};
ghost use Rattle.ex_system.specs.Saving.{HostCause};
ghost use Rattle.ex_system.specs.Start.{Began, FileCause, HasImage, InputCause, IsEarly, IsLoaded};

use cm_io::{Host, Loaded, NoMemory, Status};
use ex_image::{ImageFault, decode};
use ex_store::Store;
use std::alloc::Global;

/// The most bytes of a file that is loaded: 16 MiB, more than any image has.
pub const IMAGE_LIMIT: u32 = 16_777_216;

// The store of which the bytes are the image.
fn decoded(alloc: Global, bytes: &[u8]) -> Result<Store, Status>
    requires { length bytes.now ≤ IMAGE_LIMIT }
    ensures image { IfOk result (λ store. HasImage (Some bytes.now) store.state) }
    ensures early { (name : List ℕ) → IfErr result (λ status. IsEarly (Some name) status) }
    ensures cause { IfErr result (λ status. FileCause (Some bytes.now) status) }
    ensures host_cause { (count : ℕ) → IfErr result (λ status. HostCause count count status) }
{
    match decode(alloc, bytes) {
        Ok(store) => Ok(store),
        Err(ImageFault::Bad { at, kind }) => Err(Status::BadImage { at, kind }),
        Err(ImageFault::NoMemory) => Err(Status::NoMemory),
    }
}

// The store of which a file has the image.
fn loaded<H: Host>(alloc: Global, name: &str, host: &mut H) -> Result<Store, Status>
    ensures image { IsTrue H.tells → IfOk result (λ store. HasImage (H.files host.old name.now) store.state) }
    ensures early { IfErr result (λ status. IsEarly (Some name.now) status) }
    ensures cause { IsTrue H.tells → IfErr result (λ status. FileCause (H.files host.old name.now) status) }
    ensures loaded { IsLoaded (Some name.now) (disk_of H.Host host.old) (disk_of H.Host host.new) }
    ensures quiet { OnOk result (H.faults host.new ≡ H.faults host.old) }
    ensures host_cause { IfErr result (λ status. HostCause (H.faults host.old) (H.faults host.new) status) }
{
    match host.load(alloc, name, IMAGE_LIMIT) {
        Loaded::Bytes(bytes) => decoded(alloc, &bytes),
        Loaded::Absent => Err(Status::NoImage),
        Loaded::TooLarge => Err(Status::ImageTooLarge),
        Loaded::Failed => Err(Status::HostFault),
        Loaded::NoMemory => Err(Status::NoMemory),
    }
}

/// The store that a run begins with: that of which a file has the image, or a new one where no file is named. The file
/// is loaded once.
pub fn start<H: Host>(alloc: Global, input: Option<&str>, host: &mut H) -> Result<Store, Status>
    ensures began { IfOk result (λ store. Began (disk_of H.Host host.old) (option_copied input.entry) store.state) }
    ensures early { IfErr result (λ status. IsEarly (option_copied input.entry) status) }
    // [start-cause]
    ensures cause { IfErr result (λ status. InputCause (disk_of H.Host host.old) (option_copied input.entry) status) }
    ensures loaded { IsLoaded (option_copied input.entry) (disk_of H.Host host.old) (disk_of H.Host host.new) }
    ensures quiet { OnOk result (H.faults host.new ≡ H.faults host.old) }
    ensures host_cause { IfErr result (λ status. HostCause (H.faults host.old) (H.faults host.new) status) }
{
    match input {
        Some(name) => loaded(alloc, name, host),
        None => match Store::new(alloc) {
            Ok(store) => Ok(store),
            Err(NoMemory) => Err(Status::NoMemory),
        },
    }
}
