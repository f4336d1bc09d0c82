// The end of a run is closed: the image is written, and the message of the status is shown.
ghost use Rattle.std.specs.Prelude.{◌≡◌, ◌++◌, [], false};
ghost use Rattle.cm_text.specs.ScreenBytes.{end_of_line};
ghost use Rattle.ex_system.specs.Disk.{disk_of};
ghost use Rattle.ex_system.specs.Messages.{message};
ghost use Rattle.ex_system.specs.Saving.{IsEnd, IsOr, Saves};
ghost use Rattle.ex_system.specs.Trying.{Tried};
ghost use Rattle.ex_run.specs.Closing.{Closes, Ends};

use cm_io::{Host, Put, Sink, Status};
use cm_run::Stop;
use cm_text::end_of_line;
use ex_store::Store;
use ex_system::{finish, save_image};

// Ends the line that is open, writes the image of a store to a file, and shows the message of the status that it comes
// to. A screen that fails is given no more.
fn halt<H: Host, S: Sink>(
    status: Status,
    store: &Store,
    out: &str,
    host: &mut H,
    screen: &mut S,
) -> Status
    requires { IsEnd status }
    ensures status { IsOr result status }
    ensures shown { Tried (S.contents screen.old) (S.contents screen.new)
        (S.faults screen.old) (S.faults screen.new) [] (end_of_line ++ message result) }
    ensures saved { Saves (disk_of H.Host host.old) (disk_of H.Host host.new) out.now store.now.state result }
{
    match screen.put(end_of_line()) {
        Put::Done => finish(status, store, out, host, screen),
        Put::Failed => save_image(status, store, out, host),
    }
}

// Ends a run whose keys were read to their end: ends the line that is open, which may fail.
fn end_line<H: Host, S: Sink>(store: &Store, out: &str, host: &mut H, screen: &mut S) -> Status
    ensures ends { Ends false (S.contents screen.old) (S.contents screen.new)
        (S.faults screen.old) (S.faults screen.new) result }
    ensures quiet { result ≡ Status.Done → S.faults screen.new ≡ S.faults screen.old }
    ensures saved { Saves (disk_of H.Host host.old) (disk_of H.Host host.new) out.now store.now.state result }
{
    match screen.put(end_of_line()) {
        Put::Done => finish(Status::Done, store, out, host, screen),
        Put::Failed => save_image(Status::WriteFault, store, out, host),
    }
}

/// Closes the end of a run that stopped so, where its application has ended it or not: ends the line that is open,
/// writes the image of the store to a file, and shows the message of the status that it ends with.
#[tactic(auto, unfolding(crate::specs::Closing::Closes))]
pub fn close<H: Host, S: Sink>(
    stop: Result<(), Stop>,
    ended: bool,
    store: &Store,
    out: &str,
    host: &mut H,
    screen: &mut S,
) -> Status
    // [close]
    ensures closes { Closes stop ended (S.contents screen.old) (S.contents screen.new)
        (S.faults screen.old) (S.faults screen.new) result }
    ensures quiet { result ≡ Status.Done → S.faults screen.new ≡ S.faults screen.old }
    ensures saved { Saves (disk_of H.Host host.old) (disk_of H.Host host.new) out.now store.now.state result }
{
    match stop {
        Ok(()) => {
            if ended {
                finish(Status::Done, store, out, host, screen)
            } else {
                end_line(store, out, host, screen)
            }
        }
        Err(Stop::Keys) => halt(Status::ReadFault, store, out, host, screen),
        Err(Stop::Limit) => halt(Status::KeyLimit, store, out, host, screen),
        Err(Stop::Memory) => halt(Status::NoMemory, store, out, host, screen),
        Err(Stop::Screen) => save_image(Status::WriteFault, store, out, host),
        Err(Stop::Log) => finish(Status::WriteFault, store, out, host, screen),
    }
}
