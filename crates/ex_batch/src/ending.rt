// The end of a run of a control file.
ghost use Rattle.std.specs.Prelude.{◌≡◌, ◌≤◌, []};
ghost use Rattle.cm_io.specs.Fault.{PutCause};
ghost use Rattle.cm_io.specs.Contents.{Adds};
ghost use Rattle.cm_state.specs.Echo.{refusal};
ghost use Rattle.ex_system.specs.Disk.{disk_of};
ghost use Rattle.ex_system.specs.Saving.{IsEnd, Saves};
ghost use Rattle.ex_system.specs.Trying.{Tried};
ghost use Rattle.ex_batch.specs.RunEnd.{Closes, status_of, stop_of};

use crate::step::Ended;
use cm_fields::Code;
use cm_io::{Host, Put, Sink, Status, Writer};
use cm_run::Stop;
use cm_state::put_refusal;
use ex_store::Store;
use ex_system::{finish, save_image};

// The status of a run that went so.
fn status_of(how: Result<Ended, Stop>) -> Status
    ensures status { result ≡ status_of how }
    ensures end { IsEnd result }
{
    match how {
        Ok(Ended::Finished) => Status::Done,
        Ok(Ended::Stopped(_)) => Status::Stopped,
        Err(Stop::Memory) => Status::NoMemory,
        Err(_) => Status::WriteFault,
    }
}

// Why it was stopped, where that is what its status says.
fn stop_of(how: Result<Ended, Stop>, status: Status) -> Option<Code>
    ensures { result ≡ stop_of how status }
{
    match (how, status) {
        (Ok(Ended::Stopped(code)), Status::Stopped) => Some(code),
        _ => None,
    }
}

// Puts why a run was stopped.
#[tactic(auto, using(cm_io::proofs::Writers::finish_puts))]
fn put_stop<S: Sink>(code: Code, screen: &mut S) -> Put
    ensures bytes { Adds (S.contents screen.old) (S.contents screen.new) (refusal code) result }
    ensures cause { PutCause (S.faults screen.old) (S.faults screen.new) result }
{
    let mut out = Writer::new(screen);
    put_refusal(code, &mut out);
    out.finish()
}

// Shows why a run was stopped. A screen that fails here changes nothing.
fn show_stop<S: Sink>(code: Code, screen: &mut S)
    ensures { Tried (S.contents screen.old) (S.contents screen.new)
        (S.faults screen.old) (S.faults screen.new) [] (refusal code) }
{
    put_stop(code, screen);
}

/// Ends a run that went so: writes the image, and shows after it why the run was stopped, or the message of the status
/// that it ends with. A screen that has failed is given nothing more.
pub(crate) fn close<H: Host, S: Sink>(
    how: Result<Ended, Stop>,
    store: &Store,
    out: &str,
    host: &mut H,
    screen: &mut S,
) -> Status
    ensures closes { Closes how (S.contents screen.old) (S.contents screen.new)
        (S.faults screen.old) (S.faults screen.new) result }
    ensures saved { Saves (disk_of H.Host host.old) (disk_of H.Host host.new) out.now store.now.state result }
{
    if let Err(Stop::Screen) = how {
        return save_image(Status::WriteFault, store, out, host);
    }
    let how = &how;
    let status = finish(status_of(*how), store, out, host, screen);
    match stop_of(*how, status) {
        Some(code) => {
            show_stop(code, screen);
            status
        }
        None => status,
    }
}
