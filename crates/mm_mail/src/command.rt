// What a confirmed line commands, by the roles of its fields.
ghost use Rattle.std.specs.Prelude.{◌≡◌};
ghost use Rattle.mm_mail.specs.Command.{command_of, named, number_in, receiver_in, sends_of, subject_in, value_of};

use crate::grammar::{DELETE, HEADERS, QUIT, READ, SEND};
use cm_blocks::Role;
use cm_fields::Value;
use cm_files::Names;
use cm_state::Session;
use cm_text::Name;
use ex_commands::{directory_name, quoted_by};

/// What a confirmed line commands.
#[derive(Debug, Drop)]
pub enum Command {
    /// Nothing: the line is empty.
    Empty,
    /// DELETE: the message with this number is marked as deleted.
    Delete(u64),
    /// HEADERS: the messages are listed.
    Headers,
    /// QUIT: the run ends.
    Quit,
    /// READ: the message with this number is shown.
    Read(u64),
    /// SEND: a message is typed in.
    Send {
        /// The directory that is to receive it.
        receiver: Name,
        /// What it is about.
        subject: Name,
    },
}

/// What the line that a session holds commands, where it is confirmed: the field of role Verb names the command, that
/// of role Files who receives, and that of role Value the number of a message or a subject.
pub fn command_of<N: Names>(session: &Session, names: &N) -> Command
    ensures { result ≡ command_of (N.catalogue names.now) session.now }
{
    match value_of(Role::Verb, session) {
        Some(Value::Key { code, .. }) => named(code, session, names),
        _ => Command::Empty,
    }
}

// What the first field of a role stands for.
fn value_of(role: Role, session: &Session) -> Option<Value>
    ensures { result ≡ value_of role session.now.fields }
{
    match session.field_of(role) {
        Some(field) => Some(*field.value()),
        None => None,
    }
}

// The command that a keyword names.
fn named<N: Names>(verb: u16, session: &Session, names: &N) -> Command
    ensures { result ≡ named verb (N.catalogue names.now) session.now }
{
    match verb {
        DELETE => number_in(session).map_or(Command::Empty, |number| Command::Delete(number)),
        HEADERS => Command::Headers,
        QUIT => Command::Quit,
        READ => number_in(session).map_or(Command::Empty, |number| Command::Read(number)),
        SEND => send(session, names),
        _ => Command::Empty,
    }
}

// The number of a message, as the hook judged it.
fn number_in(session: &Session) -> Option<u64>
    ensures { result ≡ number_in session.now.fields }
{
    match value_of(Role::Value, session) {
        Some(Value::Hook { value, .. }) => Some(value),
        _ => None,
    }
}

// The directory that is to receive a message.
fn receiver_in<N: Names>(session: &Session, names: &N) -> Option<Name>
    ensures { result ≡ receiver_in (N.catalogue names.now) session.now.fields }
{
    match value_of(Role::Files, session) {
        Some(Value::User(directory)) => Some(directory_name(names, directory)),
        _ => None,
    }
}

// What a message is about.
fn subject_in(session: &Session) -> Name
    ensures { result ≡ subject_in session.now }
{
    match session.field_of(Role::Value) {
        Some(field) => quoted_by(session.text(), field.value()),
        None => Name::new(""),
    }
}

fn send<N: Names>(session: &Session, names: &N) -> Command
    ensures { result ≡ sends_of (N.catalogue names.now) session.now }
{
    match receiver_in(session, names) {
        Some(receiver) => Command::Send {
            receiver,
            subject: subject_in(session),
        },
        None => Command::Empty,
    }
}
