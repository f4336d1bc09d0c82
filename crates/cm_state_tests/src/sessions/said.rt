// What the fields of a line said, and the fields of a role.
ghost use Rattle.std.specs.Prelude.{◌<◌, length};

use super::question::{Question, tries};
use crate::cabinet::Cabinet;
use crate::cases::line;
use crate::grammars::{exec, said};
use crate::judges::Judges;
use cm_blocks::{Grammar, Role, Steps};
use cm_state::Session;
use std::alloc::Global;
use std::process::Abort;
use std::sync::ledger::Ledger;
use std::test::Fail;

// Takes a whole line from the commands on.
fn take<L: Ledger>(
    rt: &impl Abort,
    text: &str,
    session: &mut Session,
    grammar: &Grammar,
    steps: &mut Steps<L>,
)
    requires nodes { 0 < length grammar.now.nodes }
{
    let line = line(rt, text);
    session.whole(0, line.bytes(), grammar, &Cabinet, &Judges, steps);
}

// What each field said, with a bar after it.
fn all_said(alloc: Global, session: &Session, grammar: &Grammar) -> Result<String, Fail> {
    let mut all = String::new(alloc);
    for number in 0..session.held() {
        let said = session.said(session.field(number), grammar);
        all.push_str(str::from_utf8(said)?)?;
        all.push_str("|")?;
    }
    Ok(all)
}

// A case is a line, and what each of its fields said.
pub(crate) fn try_case<L: Ledger>(
    rt: &impl Abort,
    alloc: Global,
    case: &str,
    session: &mut Session,
    grammar: &Grammar,
    steps: &mut Steps<L>,
) -> Result<(), Fail>
    requires nodes { 0 < length grammar.now.nodes }
{
    let (text, wanted) = case.split_once('|').ok_or("a case")?;
    take(rt, text, session, grammar, steps);
    let found = all_said(alloc, session, grammar)?;
    assert_eq!(rt; found.as_str(), wanted, "at {case}");
    Ok(())
}

// What the field with a number among those of a role said.
fn said_by<'a>(
    session: &'a Session,
    role: Role,
    number: u8,
    grammar: &'a Grammar,
) -> Option<&'a [u8]> {
    let field = session.nth_of(role, number)?;
    Some(session.said(field, grammar))
}

fn role(name: &str) -> Option<Role> {
    match name {
        "Value" => Some(Role::Value),
        "Own3" => Some(Role::Own(3)),
        "Own4" => Some(Role::Own(4)),
        "Sub" => Some(Role::Sub),
        _ => None,
    }
}

// A line, a role, a number, and what is wanted.
fn parts(case: &str) -> Option<(&str, Role, u8, &str)> {
    let (text, rest) = case.split_once('|')?;
    let (name, rest) = rest.split_once('|')?;
    let (number, wanted) = rest.split_once('|')?;
    Some((text, role(name)?, number.parse().ok()?, wanted))
}

// A case is a line, a role, a number, and what the field with this number said, or `-` where there is none.
pub(crate) fn try_role<L: Ledger>(
    rt: &impl Abort,
    alloc: Global,
    case: &str,
    session: &mut Session,
    grammar: &Grammar,
    steps: &mut Steps<L>,
) -> Result<(), Fail>
    requires nodes { 0 < length grammar.now.nodes }
{
    let (text, role, number, wanted) = parts(case).ok_or("a case")?;
    take(rt, text, session, grammar, steps);
    let said = said_by(session, role, number, grammar).unwrap_or(b"-");
    let found = String::from_str(alloc, str::from_utf8(said)?)?;
    assert_eq!(rt; found.as_str(), wanted, "at {case}");
    Ok(())
}

// [field-text]
// A value that is a part of the line is that part, and any other the field as it was typed. Of a field that was not
// typed it is the default, and of a quoted one what is between its quotes.
#[test]
fn tells_what_fields_said(rt: HostRuntime) -> Result<(), Fail> {
    let cases = "\
alfa 12 \"a \"\"b\"\" c\" to the end|alfa|12|a \"\"b\"\" c|to the end|
  alfa  0012  \"\"  x |alfa|0012||x |
alfa ; a comment|alfa|7|say \"\"hi\"\"|the rest|
|FIRST|7|say \"\"hi\"\"|the rest|
,a.for <new>|,|a.for|new|";
    tries(&rt, &rt, Question::Said, said(rt.alloc())?, cases)
}

#[test]
fn tells_what_was_typed_for_a_command(rt: HostRuntime) -> Result<(), Fail> {
    let cases = "\
inf (ab) ver|inf|(ab)|ver|
CONNECT|CONNECT||OPERATOR|
P A/C:12/NOTE:\"hi\"|P||A|/C:|12|/NOTE:|hi|
DEFINE A1:|DEFINE||A1|:||
REMARK ! not a comment|REMARK|! not a comment|";
    tries(&rt, &rt, Question::Said, exec(rt.alloc())?, cases)
}

// Fields of a role are numbered in the order of the line.
#[test]
fn finds_each_field_of_a_role(rt: HostRuntime) -> Result<(), Fail> {
    let cases = "\
alfa 12 \"b\" c|Value|0|alfa
alfa 12 \"b\" c|Value|1|b
alfa 12 \"b\" c|Value|2|-
alfa 12 \"b\" c|Own3|0|12
alfa 12 \"b\" c|Own3|1|c
alfa 12 \"b\" c|Own3|2|-
alfa 12 \"b\" c|Own3|255|-
alfa 12 \"b\" c|Own4|0|-
alfa 12 \"b\" c|Sub|0|-
|Own3|1|the rest
12|Own3|0|7
,x|Own3|0|-";
    tries(&rt, &rt, Question::Role, said(rt.alloc())?, cases)
}
