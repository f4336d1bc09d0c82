// The message of a status.
#![tactic(auto, using(crate::proofs::Parts::pieces))]

ghost use Rattle.std.specs.Prelude.{◌≡◌, []};
ghost use Rattle.cm_io.specs.Fault.{PutCause};
ghost use Rattle.cm_io.specs.Contents.{Adds};
ghost use Rattle.cm_io.specs.declared.status.Status.TheVariants as status;
ghost use Rattle.ex_system.specs.Messages.{IsSilent, colon, fault_text, kind_text, message, message_head};
ghost use Rattle.ex_system.specs.Trying.{Tried};

use cm_io::{Kind, Put, Sink, Status, put_decimal, put_line};
use cm_text::end_of_line;

// The message of a status, without the end of its line, and without the place and the kind after that of BadImage. It
// is empty where there is none.
#[tactic(auto, unfolding(crate::specs::Messages::message_head))]
fn message_head(status: Status) -> &'static str
    ensures { result.now ≡ message_head status }
{
    match status {
        Status::Done | Status::Usage | Status::WriteFault | Status::Stopped => "",
        Status::BadImage { .. } => "?Image is bad at ",
        Status::HostFault => "?Host fault",
        Status::ReadFault => "?Read fault",
        Status::NoMemory => "?No memory",
        Status::KeyLimit => "?Too many keys",
        Status::NoImage => "?No image",
        Status::ImageTooLarge => "?Image too large",
    }
}

// The word for a kind of fault of an image.
#[tactic(auto, unfolding(crate::specs::Messages::kind_text))]
fn kind_text(kind: Kind) -> &'static str
    ensures { result.now ≡ kind_text kind }
{
    match kind {
        Kind::Cut => "Cut",
        Kind::Form => "Form",
        Kind::Range => "Range",
        Kind::Name => "Name",
        Kind::Order => "Order",
        Kind::Limit => "Limit",
    }
}

// The text between the place and the kind of a fault.
#[tactic(auto, unfolding(crate::specs::Messages::colon))]
fn colon() -> &'static [u8]
    ensures { result.now ≡ colon }
{
    b": "
}

// Puts where the bytes are no image, and why.
#[tactic(auto, using(crate::proofs::Parts::pieces), unfolding(crate::specs::Messages::fault_text))]
fn put_fault<S: Sink>(at: u32, kind: Kind, screen: &mut S) -> Put
    ensures bytes { Adds (S.contents screen.old) (S.contents screen.new) (fault_text at kind) result }
    ensures cause { PutCause (S.faults screen.old) (S.faults screen.new) result }
{
    if let Put::Failed = put_decimal(u64::from(at), screen) {
        return Put::Failed;
    }
    if let Put::Failed = screen.put(colon()) {
        return Put::Failed;
    }
    screen.put(kind_text(kind).as_bytes())
}

// Puts the message of BadImage.
fn put_bad_image<S: Sink>(at: u32, kind: Kind, screen: &mut S) -> Put
    ensures bytes { Adds (S.contents screen.old) (S.contents screen.new) (message (status.BadImage at kind)) result }
    ensures cause { PutCause (S.faults screen.old) (S.faults screen.new) result }
{
    if let Put::Failed = screen.put(message_head(Status::BadImage { at, kind }).as_bytes()) {
        return Put::Failed;
    }
    if let Put::Failed = put_fault(at, kind, screen) {
        return Put::Failed;
    }
    screen.put(end_of_line())
}

/// Shows the message of a status, where it has one. A screen that fails here changes nothing.
pub fn show_message<S: Sink>(status: Status, screen: &mut S)
    ensures shown { Tried (S.contents screen.old) (S.contents screen.new)
        (S.faults screen.old) (S.faults screen.new) [] (message status) }
    ensures quiet { IsSilent status
        → (S.contents screen.new ≡ S.contents screen.old) × (S.faults screen.new ≡ S.faults screen.old) }
{
    match status {
        Status::Done | Status::Usage | Status::WriteFault | Status::Stopped => {}
        Status::BadImage { at, kind } => {
            put_bad_image(at, kind, screen);
        }
        _ => {
            put_line(message_head(status).as_bytes(), screen);
        }
    }
}
