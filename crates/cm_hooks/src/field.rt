// A field that a hook judges.
ghost use Rattle.std.specs.Prelude.{◌≡◌, ◌≤◌, drop, length};
ghost use Rattle.std.specs.List.{prefix_len};
ghost use Rattle.cm_hooks.specs.Field.{hook, hook_of};

use crate::{Answer, Rules};
use cm_fields::{Code, Try, Value, said};
use cm_text::{LINE_LIMIT, TEXT_LIMIT};

// How many bytes of the fields of the hook with this id a text begins with.
fn byte_run<R: Rules>(rules: &R, id: u8, text: &[u8]) -> usize
    ensures value { result ≡ prefix_len ((R.meanings rules.now).bytes id).test text.now }
    ensures within { result ≤ length text.now }
{
    text.iter()
        .take_while(|byte| rules.has_byte(id, **byte))
        .count()
}

// What the hook with this id makes of a run.
#[tactic(auto, unfolding(crate::specs::Field::hook_of))]
fn hook_of<R: Rules>(rules: &R, id: u8, run: &[u8]) -> Result<Value, Code>
    requires short { length run.now ≤ LINE_LIMIT }
    ensures { result ≡ hook_of (R.meanings rules.now).verdict id run.now }
{
    if run.is_empty() {
        return Err(Code::NoField);
    }
    match rules.verdict(id, run) {
        Answer::Yes(value) => Ok(Value::Hook { id, value }),
        Answer::No => Err(Code::Rejected),
        Answer::NoBecause(reason) => Err(Code::Own(reason)),
    }
}

/// A field of the program's own: a run of the bytes of its hook with this id, which the hook takes. Refused with
/// NoField where the run is empty, with Rejected where the hook says No, and with the hook's own reason where it says
/// NoBecause.
pub fn hook_field<R: Rules>(rules: &R, id: u8, text: &[u8], at: usize) -> Try
    requires short { length text.now ≤ TEXT_LIMIT }
    requires place { at ≤ length text.now }
    // [own-field]
    ensures { result ≡ hook (R.meanings rules.now) id (drop at text.now) at }
{
    let rest = &text[at..];
    let size = byte_run(rules, id, rest);
    if size == rest.len() {
        return Try::More;
    }
    said(at, size, size + 1, hook_of(rules, id, &rest[..size]))
}
