// What a confirmed line commands, by the roles of its fields.
ghost use Rattle.std.specs.Prelude.{◌≡◌, ◌≤◌, length, map};
ghost use Rattle.std.specs.Char.{to_ascii_uppercase};
ghost use Rattle.std.specs.Str.{IsAscii};
ghost use Rattle.cm_text.specs.declared.name.TheConstants.{NAME_LIMIT};
ghost use Rattle.eg_router.specs.Command.{code_by, command_of, name_of, said_by, setting_of, shown_by, taken_back};
ghost use Rattle.eg_router.specs.Graph.{router_graph};

use crate::grammar::{
    ADDRESS, CONFIGURE, DESCRIPTION, ENABLE, END, EXIT, INTERFACE, NO, ROUTER, RUNNING, SHOW,
    SHUTDOWN, VERSION,
};
use crate::{Change, Mode};
use cm_blocks::{Grammar, Role};
use cm_fields::{Value, unquoted};
use cm_state::Session;
use cm_text::{NAME_LIMIT, Name};

/// What SHOW shows.
#[derive(Clone, Copy, Debug, PartialEq, Eq)]
pub enum Shown {
    /// A line for each interface.
    Interfaces,
    /// The lines that make the interfaces as they are, typed in the mode of configuration.
    Configuration,
    /// What the program is.
    Version,
}

/// What a confirmed line commands.
#[derive(Debug, Drop)]
pub enum Command {
    /// Nothing: the line is empty.
    Nothing,
    /// ENABLE, CONFIGURE TERMINAL, ROUTER and END: to go to this mode.
    Go(Mode),
    /// EXIT: to go one mode up.
    Exit,
    /// INTERFACE: to go to the mode of the interface of this name, which is made where there is none.
    Interface(Name),
    /// NO INTERFACE: to remove the interface of this name.
    NoInterface(Name),
    /// ADDRESS, DESCRIPTION, SHUTDOWN, and NO before them: to change the interface whose mode it is.
    Set(Change),
    /// SHOW.
    Show(Shown),
}

/// What the line that a session holds commands, where it is confirmed: the field of role Verb names the command, that
/// of role What what it shows or takes back, that of role Files an interface, that of role Value a description or an
/// address.
pub fn command_of(session: &Session, grammar: &Grammar) -> Command
    requires { grammar.now ≡ router_graph }
    ensures { result ≡ command_of session.now }
{
    let verb = code_by(session.value_of(Role::Verb));
    let what = code_by(session.value_of(Role::What));
    match verb {
        ENABLE | END => Command::Go(Mode::Privileged),
        CONFIGURE => Command::Go(Mode::Configuration),
        ROUTER => Command::Go(Mode::Protocol),
        EXIT => Command::Exit,
        INTERFACE => Command::Interface(name_of(session, grammar)),
        SHOW => shown_by(what),
        NO => taken_back(what, session, grammar),
        ADDRESS => Command::Set(Change::Address(setting_of(session, grammar))),
        DESCRIPTION => Command::Set(Change::Description(setting_of(session, grammar))),
        SHUTDOWN => Command::Set(Change::Shutdown(true)),
        _ => Command::Nothing,
    }
}

// What SHOW shows, by its keyword.
fn shown_by(what: u16) -> Command
    ensures { result ≡ shown_by what }
{
    match what {
        INTERFACE => Command::Show(Shown::Interfaces),
        RUNNING => Command::Show(Shown::Configuration),
        VERSION => Command::Show(Shown::Version),
        _ => Command::Nothing,
    }
}

// What NO takes back, by its keyword.
fn taken_back(what: u16, session: &Session, grammar: &Grammar) -> Command
    requires { grammar.now ≡ router_graph }
    ensures { result ≡ taken_back what session.now }
{
    match what {
        INTERFACE => Command::NoInterface(name_of(session, grammar)),
        ADDRESS => Command::Set(Change::Address(Name::new(""))),
        DESCRIPTION => Command::Set(Change::Description(Name::new(""))),
        SHUTDOWN => Command::Set(Change::Shutdown(false)),
        _ => Command::Nothing,
    }
}

// The code of a keyword, or one that no keyword has.
fn code_by(value: Option<Value>) -> u16
    ensures { result ≡ code_by value }
{
    match value {
        Some(Value::Key { code, .. }) => code,
        _ => 0,
    }
}

// What the first field of a role said, and nothing where there is none.
fn said_by<'a>(role: Role, session: &'a Session, grammar: &'a Grammar) -> &'a [u8]
    requires { grammar.now ≡ router_graph }
    ensures value { result.now ≡ said_by role session.now }
    ensures ascii { IsAscii result.now }
{
    match session.field_of(role) {
        Some(field) => session.said(field, grammar),
        None => b"",
    }
}

// The name of an interface as the router keeps it.
fn name_of(session: &Session, grammar: &Grammar) -> Name
    requires { grammar.now ≡ router_graph }
    ensures { result ≡ name_of session.now }
{
    let said = said_by(Role::Files, session, grammar);
    upper(&said[..NAME_LIMIT.min(said.len())])
}

// What DESCRIPTION or ADDRESS says; an address has no quotes.
fn setting_of(session: &Session, grammar: &Grammar) -> Name
    requires { grammar.now ≡ router_graph }
    ensures { result ≡ setting_of session.now }
{
    unquoted(said_by(Role::Value, session, grammar))
}

// A text in upper case.
#[tactic(auto, using(cm_lists::proofs::Ascii::up_more, cm_lists::proofs::Ascii::up_all))]
fn upper(text: &[u8]) -> Name
    requires short { length text.now ≤ NAME_LIMIT }
    requires ascii { IsAscii text.now }
    ensures { result ≡ map to_ascii_uppercase text.now }
{
    let mut upper = Name::new("");
    for byte in text {
        upper.push(byte.to_ascii_uppercase());
    }
    upper
}
