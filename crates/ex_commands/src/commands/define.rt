// DEFINE.
#![tactic(auto, using(cm_io::proofs::Texts::each))]

ghost use Rattle.std.specs.Prelude.{Some, false, true, is_some, ◌≡◌, option_copied};
ghost use Rattle.cm_state.specs.SessionState.{text_of};
ghost use Rattle.cm_files.specs.LogicalName.{is_logical_name};
ghost use Rattle.ex_store.specs.State.{has_directory};
ghost use Rattle.ex_commands.specs.declared.command.Command.TheVariants as commands;
ghost use Rattle.ex_commands.specs.Answer.{MayAct};
ghost use Rattle.ex_commands.specs.Commands.Define.{define_of, defines, logical_by, logical_in, undefines};
ghost use Rattle.ex_commands.specs.Line.{said_of};
ghost use Rattle.ex_commands.specs.Outcome.{Outcome};
ghost use Rattle.ex_commands.specs.NameParts.{IsLogical, IsLogicalIn, IsReadable, line_of};

use crate::acts::refuse;
use crate::fields::directory_in;
use crate::pairs::Origin;
use crate::place::upper;
use crate::plans::play;
use crate::{Acted, Command};
use cm_blocks::{Field, Grammar, Role};
use cm_fields::{Span, Value};
use cm_files::Names;
use cm_io::{Sink, Writer};
use cm_state::Session;
use cm_text::Name;
use ex_store::{Plan, Store};

// The rule of logical names.
pub(crate) const NAME_RULE: u8 = 0;

/// What a line of DEFINE commands.
pub(crate) fn read<N: Names>(session: &Session, grammar: &Grammar, names: &N) -> Command
    requires { IsReadable session.now.fields }
    ensures { result ≡ define_of (line_of grammar.now (N.catalogue names.now) session.now) }
{
    let directory = directory_in(session.field_of(Role::Files), session, grammar, names);
    match logical_in(session.field_of(Role::Value), session, grammar, names) {
        Some(name) => Command::Define { name, directory },
        None => Command::Empty,
    }
}

// The logical name that a field is.
fn logical_in<N: Names>(
    field: Option<&Field>,
    session: &Session,
    grammar: &Grammar,
    names: &N,
) -> Option<Name>
    requires { IsLogicalIn (option_copied field) }
    ensures { result ≡ logical_in (line_of grammar.now (N.catalogue names.now) session.now)
        (option_copied field.entry) }
{
    match field {
        Some(field) => logical_by(field, session, grammar),
        None => None,
    }
}

// The bytes of a field that the rule of logical names took, in upper case.
fn logical_by(field: &Field, session: &Session, grammar: &Grammar) -> Option<Name>
    requires { IsLogical field.now field.now.value }
    ensures { result ≡ logical_by (said_of grammar.now (text_of session.now) field.now) field.now field.now.value }
{
    match field.value() {
        Value::Hook { id, .. } => {
            if *id != NAME_RULE {
                return None;
            }
            let place = Span {
                start: field.start(),
                end: field.end(),
            };
            Some(upper(session.source_of(field, grammar), place))
        }
        _ => None,
    }
}

// Takes a logical name away.
fn undefine<S: Sink>(store: &mut Store, name: &Name, out: &mut Writer<'_, S>) -> Acted
    ensures { Outcome S.Sink out.old out.new (undefines name.now store.old.state) false
        store.old.state store.new.state result }
{
    match store.undefine(name.as_str()) {
        Ok(()) => Acted::Ok,
        Err(code) => refuse(code, out),
    }
}

// Lets a logical name stand for a directory.
fn define<S: Sink>(
    store: &mut Store,
    name: &Name,
    directory: &Name,
    moment: u64,
    out: &mut Writer<'_, S>,
) -> Acted
    requires name { is_logical_name name.now ≡ true }
    requires directory { has_directory directory.now store.old.state.directories ≡ true }
    ensures { Outcome S.Sink out.old out.new (defines name.now (Some directory.now) moment store.old.state) true
        store.old.state store.new.state result }
{
    let plan = Plan::Define {
        name: Name::new(name.as_str()),
        directory: Name::new(directory.as_str()),
    };
    play(store, plan, Origin::Files, moment, out)
}

/// Lets a logical name stand for a directory, or takes it away where none is said.
pub(crate) fn act<S: Sink>(
    store: &mut Store,
    name: &Name,
    directory: Option<&Name>,
    moment: u64,
    out: &mut Writer<'_, S>,
) -> Acted
    requires { MayAct (commands.Define name.now (option_copied directory)) store.old.state }
    ensures { Outcome S.Sink out.old out.new (defines name.now (option_copied directory.entry) moment store.old.state)
        (is_some (option_copied directory.entry)) store.old.state store.new.state result }
{
    match directory {
        Some(directory) => define(store, name, directory, moment, out),
        None => undefine(store, name, out),
    }
}
