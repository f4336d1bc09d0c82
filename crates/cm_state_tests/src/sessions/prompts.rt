// Prompts that are made at run time.
ghost use Rattle.std.specs.Prelude.{◌<◌, length};

use super::question::{Question, tries};
use super::run::run_after;
use crate::cabinet::Cabinet;
use crate::cases::repeat;
use crate::grammars::exec;
use crate::judges::Judges;
use cm_blocks::{Grammar, Steps};
use cm_state::{Label, Prompt};
use cm_text::{NAME_LIMIT, Name};
use std::alloc::Global;
use std::process::Abort;
use std::sync::ledger::Ledger;
use std::test::Fail;

// A name, or what follows it.
fn label_of(rt: &impl Abort, text: &str) -> Label {
    assert!(rt; text.len() <= NAME_LIMIT, "{text} is too long");
    Label::of(&Name::new(text))
}

// A prompt, with a bar between the name and what follows it; keys, and what is shown.
fn parts(case: &str) -> Option<(&str, &str, &str, &str)> {
    let (name, rest) = case.split_once('|')?;
    let (after, rest) = rest.split_once('|')?;
    let (keys, wanted) = rest.split_once('|')?;
    Some((name, after, keys, wanted))
}

pub(crate) fn try_case<L: Ledger>(
    rt: &impl Abort,
    alloc: Global,
    case: &str,
    grammar: &Grammar,
    steps: &mut Steps<L>,
) -> Result<(), Fail>
    requires nodes { 0 < length grammar.now.nodes }
{
    let (name, after, keys, wanted) = parts(case).ok_or("a case")?;
    let prompt = Prompt::Named(label_of(rt, name), label_of(rt, after));
    let run = run_after(rt, alloc, prompt, keys, grammar, &Cabinet, &Judges, steps)?;
    assert_eq!(rt; str::from_utf8(run.shown())?, wanted, "at {case}");
    Ok(())
}

// [prompt]
// At the beginning, after control-R and `?`, where a join byte is taken away, and after a line that is over; with
// names of no byte, of one and of as many as a name has, and with no byte, one, two and as many after them.
#[test]
fn shows_names_and_what_follows(rt: HostRuntime) -> Result<(), Fail> {
    let cases = "\
host|#||host#

host|#|INF X\x12V|host#INF X\r
host#INF XV

host|#|INF ?V|host#INF ? guide word (ABOUT)\r
 or one of the following:\r
  VERSION\r
host#INF V

host|#|INF -\rV\x15|host#INF -\r
V\r
host#

host|#|LOGOUT\rA|host#LOGOUT\r
host#A

host|#|A\x03B|host#A^C\r
host#B

|#|INF\x12|#INF\r
#INF

R|#|INF\x12|R#INF\r
R#INF

[R]|#|INF\x12|[R]#INF\r
[R]#INF

[R]|#|INF ?|[R]#INF ? guide word (ABOUT)\r
 or one of the following:\r
  VERSION\r
[R]#INF 

host|> |INF X\x12|host> INF X\r
host> INF X

host||INF\x12|hostINF\r
hostINF

||INF\x12|INF\r
INF

[R]|[>]|INF\x12|[R][>]INF\r
[R][>]INF";
    tries(
        &rt,
        &rt,
        Question::Prompts,
        exec(rt.alloc())?,
        &repeat(rt.alloc(), cases, NAME_LIMIT)?,
    )
}
