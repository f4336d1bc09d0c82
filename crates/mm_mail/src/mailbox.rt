// The mailbox of a directory.
#![tactic(auto, using(cm_io::proofs::Texts::each))]

ghost use Rattle.std.specs.Prelude.{◌≡◌, ◌≤◌, length};
ghost use Rattle.std.specs.List.{prefix_len};
ghost use Rattle.cm_io.specs.Writer.{Writes};
ghost use Rattle.ex_store.specs.declared.limits.TheConstants.{MOMENT_LIMIT};
ghost use Rattle.ex_store.specs.Views.{row_of_view};
ghost use Rattle.ex_store.specs.Selection.{selected};
ghost use Rattle.ex_commands.specs.Texts.{space};
ghost use Rattle.mm_mail.specs.declared.message_name.TheConstants.{MOST_MESSAGES};
ghost use Rattle.mm_mail.specs.Mailbox.{deleted, deleted_line, deletes, first_line, greatest, greatest_among, header_if, header_line, headers, is_rest, mailbox, message_place, number_if, numbered_place, place_in, reads};

use crate::message_name::{
    MOST_MESSAGES, digits_of, four_digits, is_message_name, message_name, name_number,
};
use cm_fields::{Code, Gen};
use cm_files::Flags;
use cm_io::{Sink, Writer};
use cm_state::put_refusal;
use cm_text::{Name, end_of_line};
use ex_commands::{put_day, put_held, put_printing};
use ex_store::{Place, RowView, Store};

// How much of the first line of a message is shown in the list of messages.
const HEADER_BYTES: usize = 90;

// The generation that a message has.
const FIRST_GENERATION: u32 = 1;

// Where the files of messages of a directory stand, of this name and of these generations.
#[tactic(auto, unfolding(crate::specs::Mailbox::mail_type))]
fn place_in(directory: &Name, name: Name, generation: Gen) -> Place
    ensures { result ≡ place_in directory.now name generation }
{
    Place {
        directory: Name::new(directory.as_str()),
        name: Some(name),
        kind: Some(Name::new("MAIL")),
        generation,
        flags: Flags::default(),
    }
}

/// Where the files of messages of a directory stand, of these generations, whatever their numbers.
#[tactic(auto, unfolding(crate::specs::Mailbox::any_number))]
pub(crate) fn numbered_place(directory: &Name, generation: Gen) -> Place
    ensures { result ≡ numbered_place directory.now generation }
{
    place_in(directory, Name::new("MSG-%%%%"), generation)
}

/// Where the message of a directory with a number stands.
pub(crate) fn message_place(directory: &Name, number: u64, generation: Gen) -> Place
    ensures { result ≡ message_place directory.now number generation }
{
    place_in(directory, message_name(number), generation)
}

// A space.
#[tactic(auto, unfolding(ex_commands::specs::Texts::space))]
fn space() -> &'static [u8]
    ensures { result.now ≡ space }
{
    b" "
}

// How many bytes are before the first CR or LF.
fn line_length(bytes: &[u8]) -> usize
    ensures size { result ≡ prefix_len is_rest bytes.now }
    ensures within { result ≤ length bytes.now }
{
    bytes
        .iter()
        .take_while(|byte| !matches!(byte, b'\r' | b'\n'))
        .count()
}

// The first line of a text, up to CR or LF, at most as much of it as is shown.
fn first_line(bytes: &[u8]) -> &[u8]
    ensures { result.now ≡ first_line bytes.now }
{
    let line = &bytes[..line_length(bytes)];
    &line[..HEADER_BYTES.min(line.len())]
}

// Puts the line of a message in the list of messages.
#[tactic(auto, using(cm_io::proofs::Texts::texts), unfolding(crate::specs::Mailbox::header_line))]
fn put_header<S: Sink>(row: RowView<'_>, out: &mut Writer<'_, S>)
    requires { (row_of_view row).file.moment ≤ MOMENT_LIMIT }
    ensures { Writes S.Sink out.old out.new (header_line (row_of_view row.entry)) }
{
    out.put(space());
    out.put(digits_of(row.name.as_str().as_bytes()));
    out.put(space());
    put_day(row.file.moment, out);
    out.put(space());
    put_printing(first_line(row.file.bytes.as_slice()), out);
    out.put(end_of_line());
}

// Puts it where a file is a message.
fn put_header_if<S: Sink>(row: RowView<'_>, out: &mut Writer<'_, S>)
    requires { (row_of_view row).file.moment ≤ MOMENT_LIMIT }
    ensures { Writes S.Sink out.old out.new (header_if (row_of_view row.entry)) }
{
    if is_message_name(row.name.as_str().as_bytes()) {
        put_header(row, out);
    }
}

/// Puts the list of the messages of the connected directory.
pub(crate) fn put_headers<S: Sink>(store: &Store, out: &mut Writer<'_, S>)
    ensures { Writes S.Sink out.old out.new (headers store.now.state).reply }
{
    let place = numbered_place(store.parts().connected(), Gen::Number(FIRST_GENERATION));
    for row in store.selection(&place, false) {
        put_header_if(row, out);
    }
}

/// Puts the message of the connected directory with a number, or that there is none.
pub(crate) fn put_message<S: Sink>(store: &Store, number: u64, out: &mut Writer<'_, S>)
    requires { number ≤ MOST_MESSAGES }
    ensures { Writes S.Sink out.old out.new (reads number store.now.state).reply }
{
    let place = message_place(
        store.parts().connected(),
        number,
        Gen::Number(FIRST_GENERATION),
    );
    match store.selection(&place, false).next() {
        Some(row) => put_held(row, out),
        None => put_refusal(Code::NoMessage, out),
    }
}

// What is before the number of a message that is deleted.
#[tactic(auto, unfolding(crate::specs::Mailbox::deleted))]
fn deleted() -> &'static [u8]
    ensures { result.now ≡ deleted }
{
    b" Deleted "
}

// Puts that a message is deleted.
#[tactic(auto, using(cm_io::proofs::Texts::texts), unfolding(crate::specs::Mailbox::deleted_line))]
fn put_deleted<S: Sink>(number: u64, out: &mut Writer<'_, S>)
    ensures { Writes S.Sink out.old out.new (deleted_line number) }
{
    out.put(deleted());
    out.put(&four_digits(number));
    out.put(end_of_line());
}

/// Marks the message of the connected directory with a number as deleted, and puts that, or that there is none.
pub(crate) fn delete<S: Sink>(store: &mut Store, number: u64, out: &mut Writer<'_, S>)
    requires { number ≤ MOST_MESSAGES }
    ensures written { Writes S.Sink out.old out.new (deletes number store.old.state).reply }
    ensures state { store.new.state ≡ (deletes number store.old.state).state }
{
    let place = message_place(
        store.parts().connected(),
        number,
        Gen::Number(FIRST_GENERATION),
    );
    if store.selection(&place, false).next().is_none() {
        put_refusal(Code::NoMessage, out);
        return;
    }
    put_deleted(number, out);
    store.mark(&place);
}

// The number of a file of a message, and 0 of any other.
fn number_if(row: RowView<'_>) -> u64
    ensures value { result ≡ number_if (row_of_view row.entry) }
    ensures few { result ≤ MOST_MESSAGES }
{
    let name = row.name.as_str().as_bytes();
    if is_message_name(name) {
        name_number(name)
    } else {
        0
    }
}

// The greatest number of the files of messages of a directory with this mark, and 0 with none.
#[tactic(auto)]
fn greatest_with(store: &Store, place: &Place, marked: bool) -> u64
    ensures value { result ≡ greatest_among (selected marked place.now store.now.state) }
    ensures few { result ≤ MOST_MESSAGES }
{
    let mut greatest = 0;
    for row in store.selection(place, marked) {
        greatest = number_if(row).max(greatest);
    }
    greatest
}

/// The greatest number of the files of messages of a directory, marked or not and of any generation, and 0 with none.
pub(crate) fn greatest(store: &Store, directory: &Name) -> u64
    ensures value { result ≡ greatest directory.now store.now.state }
    ensures few { result ≤ MOST_MESSAGES }
{
    // A call for the proof: the state is well formed.
    let _ = store.parts();
    let place = numbered_place(directory, Gen::All);
    greatest_with(store, &place, false).max(greatest_with(store, &place, true))
}
