// What a confirmed line commands, by the roles of its fields.
ghost use Rattle.std.specs.Prelude.{◌≡◌};
ghost use Rattle.cm_blocks.specs.declared.function.Role.TheVariants as roles;
ghost use Rattle.cm_state.specs.Roles.{field_of};
ghost use Rattle.cm_state.specs.SessionState.{text_of};
ghost use Rattle.eg_lamps.specs.Command.{change_of, command_of};
ghost use Rattle.eg_lamps.specs.Graph.{lamp_graph};

use crate::grammar::{DIM, LIST, QUIT};
use crate::{Change, Command};
use cm_blocks::{Grammar, Role};
use cm_fields::{Value, unquoted};
use cm_state::Session;

// By how much a lamp is dimmed where the line does not say.
const STEP: u64 = 10;

// No room has this number.
const NO_ROOM: u64 = u64::MAX;

/// What the line that a session holds commands, where it is confirmed: the field of role Verb names the command,
/// that of role What its room, and that of role Value how much or what.
pub fn command_of(session: &Session, grammar: &Grammar) -> Command
    requires { grammar.now ≡ lamp_graph }
    ensures { result ≡ command_of session.now }
{
    let room = match session.value_of(Role::What) {
        Some(Value::Hook { value, .. }) => value,
        _ => NO_ROOM,
    };
    match session.value_of(Role::Verb) {
        Some(Value::Key { code: LIST, .. }) => Command::List,
        Some(Value::Key { code: QUIT, .. }) => Command::Quit,
        Some(Value::Key { code, .. }) => Command::Change {
            room,
            change: change_of(code, session, grammar),
        },
        _ => Command::Nothing,
    }
}

// What the field of role Value changes: a quoted text is a note; a number is by how much DIM dims, or else how bright a
// lamp is to be; and where there is none DIM goes by a step.
fn change_of(verb: u16, session: &Session, grammar: &Grammar) -> Change
    requires { grammar.now ≡ lamp_graph }
    ensures { result ≡ change_of verb (field_of roles.Value session.now.fields) (text_of session.now) }
{
    let Some(field) = session.field_of(Role::Value) else {
        return Change::Dim(STEP);
    };
    match field.value() {
        Value::Quoted(_) => Change::Note(unquoted(session.said(field, grammar))),
        Value::Number(by) if verb == DIM => Change::Dim(*by),
        Value::Number(level) => Change::Set(*level),
        _ => Change::Dim(STEP),
    }
}
