// A message is sent.
#![tactic(auto, using(cm_io::proofs::Texts::texts))]

ghost use Rattle.std.specs.Prelude.{◌≡◌, ◌≤◌, true, IfOk, OnErr, OnOk};
ghost use Rattle.cm_io.specs.Fault.{PutCause};
ghost use Rattle.cm_io.specs.Contents.{Adds};
ghost use Rattle.cm_io.specs.Writer.{Writes};
ghost use Rattle.ex_store.specs.State.{has_directory};
ghost use Rattle.mm_mail.specs.Delivery.{message_bytes, sends, sends_as, sent_line};
ghost use Rattle.mm_mail.specs.declared.message_name.TheConstants.{MOST_MESSAGES};

use crate::mailbox::{greatest, message_place};
use crate::message::Message;
use crate::message_name::{MOST_MESSAGES, four_digits};
use cm_fields::{Code, Gen};
use cm_io::{NoMemory, Put, Sink, Writer};
use cm_state::put_refusal;
use ex_generations::Bytes;
use ex_store::{Plan, Refusal, Store};
use std::alloc::Global;

// What the file of a message holds.
#[tactic(auto, unfolding(crate::specs::Delivery::message_bytes, crate::specs::Delivery::sender_end, cm_text::specs::ScreenBytes::end_of_line))]
fn message_bytes(alloc: Global, store: &Store, message: &Message) -> Result<Vec<u8>, NoMemory>
    ensures { IfOk result (λ bytes. bytes.items
        ≡ message_bytes store.now.state.connected message.now.subject message.now.typed) }
{
    let parts = store.parts();
    let mut bytes = Vec::new(alloc);
    bytes.extend_from_slice(parts.connected().as_bytes())?;
    bytes.extend_from_slice(b": ")?;
    bytes.extend_from_slice(message.subject.as_bytes())?;
    bytes.extend_from_slice(b"\r\n")?;
    bytes.extend_from_slice(message.typed.bytes())?;
    Ok(bytes)
}

// Puts that a message is sent.
#[tactic(auto, using(crate::proofs::Deliveries::writes_sent), unfolding(crate::specs::Delivery::sent_to, ex_commands::specs::Texts::space))]
fn put_sent<S: Sink>(receiver: &[u8], number: u64, out: &mut Writer<'_, S>)
    ensures { Writes S.Sink out.old out.new (sent_line receiver.now number) }
{
    out.put(b" Sent to ");
    out.put(receiver);
    out.put(b" ");
    out.put_line(&four_digits(number));
}

// Makes the file of a message with this number, and puts that it is sent, or why it is refused.
fn deliver_as<S: Sink>(
    alloc: Global,
    store: &mut Store,
    number: u64,
    message: &Message,
    out: &mut Writer<'_, S>,
) -> Result<(), NoMemory>
    requires there { has_directory message.now.receiver store.old.state.directories ≡ true }
    requires few { number ≤ MOST_MESSAGES }
    ensures written { OnOk result (Writes S.Sink out.old out.new (sends_as number message.now store.old.state).reply) }
    ensures state { OnOk result (store.new.state ≡ (sends_as number message.now store.old.state).state) }
    ensures unwritten { OnErr result (out.new ≡ out.old) }
    ensures same { OnErr result (store.new.state ≡ store.old.state) }
{
    let plan = Plan::Write {
        to: message_place(&message.receiver, number, Gen::Next),
        bytes: Bytes::new(message_bytes(alloc, store, message)?),
    };
    match store.prepare(plan, message.moment) {
        Ok(ready) => {
            put_sent(message.receiver.as_bytes(), number, out);
            store.apply(ready);
            Ok(())
        }
        Err(Refusal::Code(code)) => {
            put_refusal(code, out);
            Ok(())
        }
        Err(Refusal::NoMemory) => Err(NoMemory),
    }
}

// Sends a message, and puts that it is sent, or why it is refused.
#[tactic(auto, unfolding(crate::specs::Delivery::sends))]
fn deliver<S: Sink>(
    alloc: Global,
    store: &mut Store,
    message: &Message,
    out: &mut Writer<'_, S>,
) -> Result<(), NoMemory>
    requires there { has_directory message.now.receiver store.old.state.directories ≡ true }
    ensures written { OnOk result (Writes S.Sink out.old out.new (sends message.now store.old.state).reply) }
    ensures state { OnOk result (store.new.state ≡ (sends message.now store.old.state).state) }
    ensures unwritten { OnErr result (out.new ≡ out.old) }
    ensures same { OnErr result (store.new.state ≡ store.old.state) }
{
    let number = greatest(store, &message.receiver) + 1;
    if number > MOST_MESSAGES {
        put_refusal(Code::MailFull, out);
        return Ok(());
    }
    deliver_as(alloc, store, number, message, out)
}

/// Sends a message: makes a file of its receiver's, whose number is the one after the greatest, and shows ` Sent to
/// USER NNNN`. Where that number is above 9999, or the store refuses the file, why is shown, and nothing changes.
///
/// With NoMemory nothing is shown or changed. Failed says that the screen failed: a part of what is to be shown is
/// shown, and the message is sent, or refused, all the same.
#[tactic(auto, using(cm_io::proofs::Writers::finish_puts))]
pub(crate) fn send<S: Sink>(
    alloc: Global,
    store: &mut Store,
    message: &Message,
    screen: &mut S,
) -> Result<Put, NoMemory>
    requires there { has_directory message.now.receiver store.old.state.directories ≡ true }
    ensures reply { IfOk result (λ put.
        Adds (S.contents screen.old) (S.contents screen.new) (sends message.now store.old.state).reply put) }
    ensures state { OnOk result (store.new.state ≡ (sends message.now store.old.state).state) }
    ensures cause { IfOk result (λ put. PutCause (S.faults screen.old) (S.faults screen.new) put) }
    ensures unshown { OnErr result (S.contents screen.new ≡ S.contents screen.old) }
    ensures quiet { OnErr result (S.faults screen.new ≡ S.faults screen.old) }
    ensures same { OnErr result (store.new.state ≡ store.old.state) }
    ensures later { S.faults screen.old ≤ S.faults screen.new }
{
    let mut out = Writer::new(screen);
    deliver(alloc, store, message, &mut out)?;
    Ok(out.finish())
}
