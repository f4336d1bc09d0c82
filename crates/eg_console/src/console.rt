// The interfaces, what a confirmed line makes of them, and what it shows.
ghost use Rattle.std.specs.Prelude.{◌≡◌, ◌≤◌, ◌++◌, length, map};
ghost use Rattle.cm_text.specs.ScreenBytes.{end_of_line};
ghost use Rattle.cm_text.specs.declared.name.TheConstants.{NAME_LIMIT};
ghost use Rattle.cm_io.specs.Pieces.{shown_lines};
ghost use Rattle.cm_io.specs.Writer.{Writes};
ghost use Rattle.cm_state.specs.Roles.{field_of};
ghost use Rattle.cm_state.specs.SessionState.{text_of};
ghost use Rattle.eg_console.specs.Console.{changed, fresh, number_of, number_or, obeyed, row, said_or, shown};
ghost use Rattle.eg_console.specs.Graph.{console_graph};

use cm_blocks::{Grammar, Role};
use cm_fields::{Value, unquoted};
use cm_io::{Sink, Writer};
use cm_state::Session;
use cm_text::{Name, decimal_digits, end_of_line};

/// An interface.
#[derive(Debug, Drop)]
pub struct Interface {
    /// Its name.
    pub name: Name,
    /// Its address, a slash and the length of its prefix, as they were written; empty where it has none.
    pub address: Name,
    /// The most bytes that it carries at once.
    pub mtu: u64,
    /// Its speed in Mbit/s, 0 where it finds it by itself.
    pub speed: u64,
}

// An interface at the start.
pub(crate) fn fresh(name: &str) -> Interface
    requires { length name.now ≤ NAME_LIMIT }
    ensures { result ≡ fresh name.now }
{
    Interface {
        name: Name::new(name),
        address: Name::new(""),
        mtu: 1500,
        speed: 0,
    }
}

// The number that a value is, or another where there is none.
pub(crate) fn number_or(other: u64, value: Option<Value>) -> u64
    ensures { result ≡ number_or other value }
{
    match value {
        Some(Value::Key { code, .. }) => u64::from(code),
        Some(Value::Integer(number)) => number.unsigned_abs(),
        Some(Value::Hook { value, .. }) => value,
        _ => other,
    }
}

// The number of the interface that a line names.
fn number_of(line: &Session) -> u64
    ensures { result ≡ number_of line.now }
{
    number_or(4, line.value_of(Role::What))
}

// What a field said, or another text where there is none.
fn said_or(other: &Name, role: Role, line: &Session, grammar: &Grammar) -> Name
    requires { grammar.now ≡ console_graph }
    ensures { result ≡ said_or other.now (text_of line.now) (field_of role line.now.fields) }
{
    match line.field_of(role) {
        Some(field) => unquoted(line.said(field, grammar)),
        None => Name::new(other.as_str()),
    }
}

// An interface with the options of a line.
fn change(line: &Session, grammar: &Grammar, it: &mut Interface)
    requires { grammar.now ≡ console_graph }
    ensures { it.new ≡ changed line.now it.old }
{
    it.address = said_or(&it.address, Role::Own(0), line, grammar);
    it.mtu = number_or(it.mtu, line.value_of(Role::Own(1)));
    it.speed = number_or(it.speed, line.value_of(Role::Own(2)));
}

/// Changes the interface that a line names, by its options. Where it names none all stay.
#[tactic(auto, using(std::proofs::lemmas::Option::slice_get_read, std::proofs::lemmas::Option::slice_get_past))]
pub fn obey(line: &Session, grammar: &Grammar, interfaces: &mut [Interface])
    requires { grammar.now ≡ console_graph }
    // [interface]
    ensures { interfaces.new ≡ obeyed line.now interfaces.old }
{
    let number = number_of(line) as usize;
    if number < interfaces.len() {
        change(line, grammar, &mut interfaces[number]);
    }
}

/// Writes a row for each interface that a line shows.
pub fn put_reply<S: Sink>(line: &Session, interfaces: &[Interface], out: &mut Writer<'_, S>)
    ensures { Writes S.Sink out.old out.new (shown_lines (map row (shown line.now interfaces.now))) }
{
    put_rows(shown(line, interfaces), out);
}

// The interfaces that a line shows.
fn shown<'a>(line: &Session, interfaces: &'a [Interface]) -> &'a [Interface]
    ensures { result.now ≡ shown line.now interfaces.now }
{
    if number_or(0, line.value_of(Role::Verb)) == 3 {
        return interfaces;
    }
    if number_or(0, line.value_of(Role::Sub)) != 3 {
        return &[];
    }
    let after = &interfaces[(number_of(line) as usize).min(interfaces.len())..];
    &after[..after.len().min(1)]
}

#[tactic(auto, using(cm_io::proofs::Texts::each_line))]
fn put_rows<S: Sink>(interfaces: &[Interface], out: &mut Writer<'_, S>)
    ensures { Writes S.Sink out.old out.new (shown_lines (map row interfaces.now)) }
{
    for it in interfaces {
        put_row(it, out);
    }
}

// Writes the row of an interface.
#[tactic(auto, using(cm_io::proofs::Texts::texts), unfolding(crate::specs::Console::row))]
fn put_row<S: Sink>(it: &Interface, out: &mut Writer<'_, S>)
    ensures { Writes S.Sink out.old out.new (row it.now ++ end_of_line) }
{
    let address = it.address.as_bytes();
    let speed = decimal_digits(it.speed);
    out.put(it.name.as_bytes());
    out.put(if address.is_empty() {
        b""
    } else {
        b" address "
    });
    out.put(address);
    out.put(b" mtu ");
    out.put_decimal(it.mtu);
    out.put(b" speed ");
    out.put(if it.speed == 0 {
        b"auto"
    } else {
        speed.as_bytes()
    });
    out.put(end_of_line());
}
