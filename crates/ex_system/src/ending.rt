// The end of a run.
ghost use Rattle.std.specs.Prelude.{◌≡◌, []};
ghost use Rattle.ex_system.specs.Disk.{disk_of};
ghost use Rattle.ex_system.specs.Messages.{IsSilent, message};
ghost use Rattle.ex_system.specs.Saving.{IsEnd, IsOr, Saves};
ghost use Rattle.ex_system.specs.Trying.{Tried};

use crate::message::show_message;
use crate::saving::save_image;
use cm_io::{Host, Sink, Status};
use ex_store::Store;

/// Writes the image of a store to a file, and shows the message of the status that it ends with. Where that has none
/// the screen is left as it is: what the program shows of its own then is after the save.
pub fn finish<H: Host, S: Sink>(
    status: Status,
    store: &Store,
    out: &str,
    host: &mut H,
    screen: &mut S,
) -> Status
    requires { IsEnd status }
    ensures status { IsOr result status }
    ensures shown { Tried (S.contents screen.old) (S.contents screen.new)
        (S.faults screen.old) (S.faults screen.new) [] (message result) }
    ensures quiet { IsSilent result
        → (S.contents screen.new ≡ S.contents screen.old) × (S.faults screen.new ≡ S.faults screen.old) }
    ensures saved { Saves (disk_of H.Host host.old) (disk_of H.Host host.new) out.now store.now.state result }
{
    let status = save_image(status, store, out, host);
    show_message(status, screen);
    status
}
