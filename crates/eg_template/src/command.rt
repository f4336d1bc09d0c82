// What a confirmed line commands, by the roles of its fields.
ghost use Rattle.std.specs.Prelude.{◌≡◌};
ghost use Rattle.eg_template.specs.Command.{command_of};

use crate::grammar::{ADD, QUIT};
use cm_blocks::Role;
use cm_fields::Value;
use cm_state::Session;

/// What a confirmed line commands.
#[derive(Clone, Copy, Debug, PartialEq, Eq)]
pub enum Command {
    /// Nothing: the line is empty.
    Nothing,
    /// ADD: to add this number, and show the sum.
    Add(u64),
    /// QUIT: to end the run.
    Quit,
}

/// What the line that a session holds commands, where it is confirmed: the field of role Verb names the command, and
/// that of role Value its number.
pub fn command_of(session: &Session) -> Command
    ensures { result ≡ command_of session.now }
{
    match (session.value_of(Role::Verb), session.value_of(Role::Value)) {
        (Some(Value::Key { code: ADD, .. }), Some(Value::Number(number))) => Command::Add(number),
        (Some(Value::Key { code: QUIT, .. }), _) => Command::Quit,
        _ => Command::Nothing,
    }
}
