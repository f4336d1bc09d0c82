// What the fields of a line say.
ghost use Rattle.std.specs.Prelude.{◌≡◌, option_copied, is_some};
ghost use Rattle.cm_blocks.specs.declared.function.Role.TheVariants as roles;
ghost use Rattle.cm_state.specs.Roles.{field_of};
ghost use Rattle.ex_commands.specs.Line.{both, code_in, count_by, count_in, day_by, directory_in, keyword_code, last_at, place_in};
ghost use Rattle.ex_commands.specs.NameParts.{IsReadable, IsSaid, IsSaidIn, line_of};

use crate::place::{directory_by, flags_of, place_by};
use cm_blocks::{Field, Grammar, Role};
use cm_fields::Value;
use cm_files::Names;
use cm_state::Session;
use cm_text::Name;
use ex_store::Place;

/// The code of a keyword.
pub(crate) fn keyword_code(value: &Value) -> u16
    ensures { result ≡ keyword_code value.now }
{
    match value {
        Value::Key { code, .. } => *code,
        _ => 0,
    }
}

/// The day that a value is.
pub(crate) fn day_by(value: &Value) -> Option<i32>
    ensures { result ≡ day_by value.now }
{
    match value {
        Value::Date(day) => Some(*day),
        _ => None,
    }
}

// How many generations, as a rule judged it.
fn count_by(value: &Value) -> Option<u8>
    requires { IsSaid value.now }
    ensures { result ≡ count_by value.now }
{
    match value {
        Value::Hook { value, .. } => Some(*value as u8),
        _ => None,
    }
}

/// How many generations a field says.
pub(crate) fn count_in(field: Option<&Field>) -> Option<u8>
    requires { IsSaidIn (option_copied field) }
    ensures { result ≡ count_in (option_copied field.entry) }
{
    match field {
        Some(field) => count_by(field.value()),
        None => None,
    }
}

/// The code of a field's keyword.
pub(crate) fn code_in(field: Option<&Field>) -> u16
    ensures { result ≡ code_in (option_copied field.entry) }
{
    match field {
        Some(field) => keyword_code(field.value()),
        None => 0,
    }
}

/// The files that a field means.
pub(crate) fn place_in<N: Names>(
    field: Option<&Field>,
    session: &Session,
    grammar: &Grammar,
    names: &N,
) -> Option<Place>
    requires { IsSaidIn (option_copied field) }
    ensures { result ≡ place_in (line_of grammar.now (N.catalogue names.now) session.now) (option_copied field.entry) }
{
    match field {
        Some(field) => place_by(
            names,
            flags_of(field, grammar),
            session.source_of(field, grammar),
            field.value(),
        ),
        None => None,
    }
}

/// The directory that a field names.
pub(crate) fn directory_in<N: Names>(
    field: Option<&Field>,
    session: &Session,
    grammar: &Grammar,
    names: &N,
) -> Option<Name>
    requires { IsSaidIn (option_copied field) }
    ensures { result ≡ directory_in (line_of grammar.now (N.catalogue names.now) session.now)
        (option_copied field.entry) }
{
    match field {
        Some(field) => directory_by(names, session.source_of(field, grammar), field.value()),
        None => None,
    }
}

/// The files that a command works from, and those that it makes of them.
pub(crate) fn between<N: Names>(
    session: &Session,
    grammar: &Grammar,
    names: &N,
) -> Option<(Place, Place)>
    requires { IsReadable session.now.fields }
    ensures { let line = line_of grammar.now (N.catalogue names.now) session.now in
        result ≡ both (place_in line (field_of roles.Source line.fields))
        (place_in line (field_of roles.Target line.fields)) }
{
    let from = place_in(session.field_of(Role::Source), session, grammar, names);
    let to = place_in(session.field_of(Role::Target), session, grammar, names);
    match (from, to) {
        (Some(from), Some(to)) => Some((from, to)),
        _ => None,
    }
}

/// Whether a comma is at the end of the line, so that subcommands follow.
pub(crate) fn has_subs(session: &Session) -> bool
    ensures { result ≡ is_some (field_of roles.Sub session.now.fields) }
{
    session.field_of(Role::Sub).is_some()
}

/// The last field that a node took.
pub(crate) fn last_at(node: u16, session: &Session) -> Option<&Field>
    ensures { option_copied result ≡ last_at node session.now.fields }
{
    let mut number = session.held();
    while number > 0 {
        number -= 1;
        if session.field(number).node() == node {
            return Some(session.field(number));
        }
    }
    None
}
