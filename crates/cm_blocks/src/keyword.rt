// Keywords and switches.
ghost use Rattle.std.specs.Prelude.{◌≡◌, ◌≤◌, ◌<◌, ◌+◌, ◌^◌, IfOk, drop, length};
ghost use Rattle.cm_blocks.specs.Keyword.{after_slash, entry_position, key, named_switch, switch};

use cm_fields::{Code, Try, Value, said, word_run};
use cm_tables::{Entry, Look, Table};
use cm_text::TEXT_LIMIT;

// The position of the entry that a run means.
#[tactic(auto, unfolding(crate::specs::Keyword::entry_position))]
fn entry_position(table: &Table, run: &[u8]) -> Result<u16, Code>
    ensures value { result ≡ entry_position table.now run.now }
    ensures within { IfOk result (λ position. position < length table.now) }
{
    if run.is_empty() {
        return Err(Code::NotKeyword);
    }
    match table.look(run) {
        Look::None => Err(Code::NotKeyword),
        Look::Ambiguous => Err(Code::Ambiguous),
        Look::Abbrev(position) => Ok(position),
        Look::Exact(position) => Ok(position),
    }
}

/// A keyword of the table (.CMKEY): a run of word bytes that is an entry's text, or abbreviates one. Refused
/// with NotKeyword where the run is empty or abbreviates none, with Ambiguous where it abbreviates several.
pub fn key(table: &Table, text: &[u8], at: usize) -> Try
    requires short { length text.now ≤ TEXT_LIMIT }
    requires place { at ≤ length text.now }
    ensures { result ≡ key table.now (drop at text.now) at }
{
    let rest = &text[at..];
    let size = word_run(rest);
    if size == rest.len() {
        return Try::More;
    }
    let entry = match entry_position(table, &rest[..size]) {
        Ok(entry) => entry,
        Err(code) => return said(at, size, size + 1, Err(code)),
    };
    let code = table.entry(entry).code;
    said(at, size, size + 1, Ok(Value::Key { entry, code }))
}

// What the name of a switch, a run of this size, says with the byte after it, which may be a colon.
fn named_switch(table: &Table, at: usize, size: usize, colon: bool, found: Result<u16, Code>) -> Try
    requires found { IfOk found (λ position. position < length table.now) }
    requires size { at + size < 2 ^ 15 }
    ensures { result ≡ named_switch table.now at size colon found }
{
    let entry = match found {
        Ok(entry) => entry,
        Err(code) => return said(at, 0, size + 2, Err(code)),
    };
    let Entry {
        code,
        colon: wants_colon,
        ..
    } = table.entry(entry);
    let value = Value::Switch { entry, code: *code };
    if !wants_colon {
        said(at, size + 1, size + 2, Ok(value))
    } else if colon {
        said(at, size + 2, size + 2, Ok(value))
    } else {
        said(at, 0, size + 2, Err(Code::NeedColon))
    }
}

// What is after a slash.
fn after_slash(table: &Table, rest: &[u8], at: usize) -> Try
    requires { at + length rest.now < 2 ^ 15 }
    ensures { result ≡ after_slash table.now rest.now at }
{
    let size = word_run(rest);
    if size == rest.len() {
        return Try::More;
    }
    let found = entry_position(table, &rest[..size]);
    named_switch(table, at, size, rest[size] == b':', found)
}

/// A switch of the table (.CMSWI): `/` and a run of word bytes, as a keyword, and the colon of an entry that
/// takes a value. Refused with NotSwitch where no `/` stands, with NotKeyword and Ambiguous as a keyword,
/// with NeedColon where the colon is wanting.
pub fn switch(table: &Table, text: &[u8], at: usize) -> Try
    requires short { length text.now ≤ TEXT_LIMIT }
    requires place { at ≤ length text.now }
    ensures { result ≡ switch table.now (drop at text.now) at }
{
    match &text[at..] {
        [] => Try::More,
        [b'/', rest @ ..] => after_slash(table, rest, at),
        _ => said(at, 0, 1, Err(Code::NotSwitch)),
    }
}
