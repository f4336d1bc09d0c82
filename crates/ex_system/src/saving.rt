// The image is written at the end of a run.
// save_image asks for the store's parts for the proof alone, so that Saves says that the state is well formed.
ghost use Rattle.ex_system.specs.Disk.{disk_of};
ghost use Rattle.ex_system.specs.Saving.{IsEnd, IsOr, Saves};

use cm_io::{Host, Put, Status};
use ex_image::encode;
use ex_store::Store;

/// Writes the image of a store to a file. HostFault takes the place of the status where the host fails.
pub fn save_image<H: Host>(status: Status, store: &Store, out: &str, host: &mut H) -> Status
    requires { IsEnd status }
    ensures status { IsOr result status }
    // [save]
    ensures saved { Saves (disk_of H.Host host.old) (disk_of H.Host host.new) out.now store.now.state result }
{
    // A use of the parts, for the proof: the state is well formed.
    let _ = store.parts();
    match encode(store, host, out) {
        Put::Done => status,
        Put::Failed => Status::HostFault,
    }
}
