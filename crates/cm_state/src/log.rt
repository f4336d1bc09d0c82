// The line of the log that tells of one key.
#![tactic(auto)]

ghost use Rattle.std.specs.Prelude.{◌≡◌};
ghost use Rattle.cm_io.specs.Writer.{Writes};
ghost use Rattle.cm_state.specs.Log.{day_log, default_log, ending_log, fault_log, field_log, fields_log, file_log, hook_log, integer_log, marked, value_log};

use crate::stack::Stack;
use cm_blocks::{Ending, Fault, Field};
use cm_fields::{FileKind, Value};
use cm_io::{Sink, Writer};

// Puts a number after a text.
#[tactic(auto, using(cm_io::proofs::Texts::texts), unfolding(crate::specs::Log::marked))]
pub(crate) fn put_marked<S: Sink>(mark: &[u8], number: u64, out: &mut Writer<'_, S>)
    ensures { Writes S.Sink out.old out.new (marked mark.now number) }
{
    out.put(mark);
    out.put_decimal(number);
}

// Puts why, at which node and at which place a text is refused.
#[tactic(auto, using(cm_io::proofs::Texts::texts), unfolding(crate::specs::Log::fault_log))]
fn put_fault<S: Sink>(fault: Fault, out: &mut Writer<'_, S>)
    ensures { Writes S.Sink out.old out.new (fault_log fault) }
{
    put_marked(b" F", u64::from(fault.code.number()), out);
    put_marked(b".", u64::from(fault.node), out);
    put_marked(b"@", u64::from(fault.at), out);
}

// Puts what is after the last field.
#[tactic(auto, unfolding(crate::specs::Log::ending_log))]
pub(crate) fn put_ending<S: Sink>(ending: Ending, out: &mut Writer<'_, S>)
    ensures { Writes S.Sink out.old out.new (ending_log ending) }
{
    match ending {
        Ending::Open(_) => out.put(b" O"),
        Ending::Done => out.put(b" D"),
        Ending::Fault(fault) => put_fault(fault, out),
    }
}

// Puts a day, before or after 1-JAN-1970.
#[tactic(auto, unfolding(crate::specs::Log::day_log))]
fn put_day<S: Sink>(day: i32, out: &mut Writer<'_, S>)
    ensures { Writes S.Sink out.old out.new (day_log day) }
{
    let number = u64::from(day.unsigned_abs());
    if day < 0 {
        put_marked(b"d-", number, out);
    } else {
        put_marked(b"d", number, out);
    }
}

// Puts a number of a radix.
#[tactic(auto, unfolding(crate::specs::Log::integer_log))]
fn put_integer<S: Sink>(number: i64, out: &mut Writer<'_, S>)
    ensures { Writes S.Sink out.old out.new (integer_log number) }
{
    let size = number.unsigned_abs();
    if number < 0 {
        put_marked(b"#-", size, out);
    } else {
        put_marked(b"#", size, out);
    }
}

// Puts what a hook made of a field.
#[tactic(auto, using(cm_io::proofs::Texts::texts), unfolding(crate::specs::Log::hook_log))]
fn put_hook<S: Sink>(id: u8, value: u64, out: &mut Writer<'_, S>)
    ensures { Writes S.Sink out.old out.new (hook_log id value) }
{
    put_marked(b"h", u64::from(id), out);
    put_marked(b":", value, out);
}

// Puts what a file is wanted for.
#[tactic(auto, unfolding(crate::specs::Log::file_log))]
fn put_kind<S: Sink>(kind: FileKind, out: &mut Writer<'_, S>)
    ensures { Writes S.Sink out.old out.new (file_log kind) }
{
    match kind {
        FileKind::In => out.put(b"i"),
        FileKind::Out => out.put(b"o"),
        FileKind::Any => out.put(b"f"),
    }
}

// Puts what a field stands for.
#[tactic(auto, unfolding(crate::specs::Log::value_log))]
fn put_value<S: Sink>(value: Value, out: &mut Writer<'_, S>)
    ensures { Writes S.Sink out.old out.new (value_log value) }
{
    match value {
        Value::Key { code, .. } => put_marked(b"k", u64::from(code), out),
        Value::Switch { code, .. } => put_marked(b"s", u64::from(code), out),
        Value::Noise(true) => out.put(b"n1"),
        Value::Noise(false) => out.put(b"n0"),
        Value::Number(number) => put_marked(b"#", number, out),
        Value::Integer(number) => put_integer(number, out),
        Value::Word(_) => out.put(b"w"),
        Value::Quoted(_) => out.put(b"q"),
        Value::Token => out.put(b"t"),
        Value::Date(day) => put_day(day, out),
        Value::User(_) => out.put(b"u"),
        Value::Directory(_) => out.put(b"D"),
        Value::NewDirectory(_) => out.put(b"D"),
        Value::File { kind, .. } => put_kind(kind, out),
        Value::Text(_) => out.put(b"x"),
        Value::Comma => out.put(b","),
        Value::Confirm => out.put(b"c"),
        Value::Hook { id, value } => put_hook(id, value, out),
    }
}

// Puts which block took a field, what the field stands for, where it stands, and whether it is the default of its node.
#[tactic(auto, using(cm_io::proofs::Texts::texts), unfolding(crate::specs::Log::field_log))]
fn put_field<S: Sink>(field: &Field, out: &mut Writer<'_, S>)
    ensures { Writes S.Sink out.old out.new (field_log field.now) }
{
    put_marked(b" ", u64::from(field.node()), out);
    put_marked(b".", u64::from(field.block()), out);
    put_value(*field.value(), out);
    put_marked(b"@", u64::from(field.start()), out);
    put_marked(b"-", u64::from(field.end()), out);
    put_default(field.defaulted(), out);
}

// Puts whether a field is the default of its node.
#[tactic(auto, unfolding(crate::specs::Log::default_log))]
fn put_default<S: Sink>(defaulted: bool, out: &mut Writer<'_, S>)
    ensures { Writes S.Sink out.old out.new (default_log defaulted) }
{
    out.put(if defaulted { b"=" } else { b"" });
}

// Puts the fields one after another.
#[tactic(auto, using(crate::proofs::Logs::no_fields, crate::proofs::Logs::field_more))]
pub(crate) fn put_fields<S: Sink>(fields: &Stack, out: &mut Writer<'_, S>)
    ensures { Writes S.Sink out.old out.new (fields_log fields.now) }
{
    for number in 0..fields.len() {
        put_field(fields.get(number), out);
    }
}
