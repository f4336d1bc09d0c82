// How a run ends that stopped at a fault.
ghost use Rattle.std.specs.Prelude.{◌≡◌};
ghost use Rattle.cm_io_tests.specs.Ends.{closing, status_of};

use crate::trace::Stop;
use cm_io::Status;

/// The status of a run that stopped here, and whose image was lost or not.
#[tactic(auto, unfolding(crate::specs::Ends::status_of))]
pub fn status_of(stop: Stop, loses: bool) -> Status
    ensures { result ≡ status_of stop loses }
{
    if loses {
        return Status::HostFault;
    }
    match stop {
        Stop::End => Status::Done,
        Stop::Keys => Status::ReadFault,
        Stop::Screen | Stop::Log => Status::WriteFault,
    }
}

/// What such a run shows after its trace, as a text of a trace: a screen that has failed is given nothing more.
pub fn closing(stop: Stop, loses: bool) -> &'static str
    ensures { result.now ≡ closing stop loses }
{
    match (stop, loses) {
        (Stop::Keys, false) => "~?Read fault~",
        (Stop::Keys, true) => "~?Host fault~",
        (Stop::Screen, _) | (Stop::End, false) | (Stop::Log, false) => "",
        (Stop::End, true) | (Stop::Log, true) => "?Host fault~",
    }
}
