// What is asked of a session.
ghost use Rattle.std.specs.Prelude.{◌≡◌, ◌<◌, length};

use super::{again, fields, lines, prompts, run, said};
use cm_blocks::{Grammar, Steps};
use cm_state::Session;
use std::alloc::Global;
use std::marker::Brand;
use std::process::Abort;
use std::sync::ledger::{Blank, Ledger};
use std::test::Fail;

// The outcome of the keys of a run, how many fields it holds, the outcome of whole lines, what their fields said, a
// field of a role, how a run is shown again, what it holds where its text is parsed again, or what it shows after a
// prompt that is made at run time.
#[derive(Clone, Copy)]
pub(crate) enum Question {
    Keys,
    Count,
    Lines,
    Said,
    Role,
    Shown,
    Again,
    Prompts,
}

impl Question {
    // What parts its cases.
    fn separator(self) -> &'static str {
        match self {
            Question::Keys => "\n\n",
            Question::Count => "\n",
            Question::Lines => "\n",
            Question::Said => "\n",
            Question::Role => "\n",
            Question::Shown => "\n\n",
            Question::Again => "\n",
            Question::Prompts => "\n\n",
        }
    }
}

// All whole lines are lines of one session.
fn try_case<L: Ledger>(
    rt: &impl Abort,
    alloc: Global,
    question: Question,
    case: &str,
    session: &mut Session,
    grammar: &Grammar,
    steps: &mut Steps<L>,
) -> Result<(), Fail>
    requires nodes { 0 < length grammar.now.nodes }
{
    match question {
        Question::Keys => run::try_case(rt, alloc, case, grammar, steps),
        Question::Count => fields::try_case(rt, alloc, case, grammar, steps),
        Question::Lines => lines::try_case(rt, alloc, case, session, grammar, steps),
        Question::Said => said::try_case(rt, alloc, case, session, grammar, steps),
        Question::Role => said::try_role(rt, alloc, case, session, grammar, steps),
        Question::Shown => again::try_shown(rt, alloc, case, grammar, steps),
        Question::Again => again::try_case(rt, alloc, case, grammar, steps),
        Question::Prompts => prompts::try_case(rt, alloc, case, grammar, steps),
    }
}

// The counter wants the runtime itself.
fn tries_with<L: Ledger, A: Abort>(
    rt: &A,
    runtime: &HostRuntime,
    blank: Blank,
    question: Question,
    grammar: &Grammar,
    cases: &[u8],
) -> Result<(), Fail>
    requires name { blank.name ≡ L.name }
    requires parts { blank.parts ≡ L.parts }
    requires some { 0 < L.parts }
{
    let alloc = runtime.alloc();
    assert!(rt; grammar.nodes() > 0);
    let mut steps: Steps<L> = Steps::new(runtime, blank);
    let mut session = Session::new();
    for case in str::from_utf8(cases)?.split(question.separator()) {
        try_case(rt, alloc, question, case, &mut session, grammar, &mut steps)?;
    }
    Ok(())
}

// Tries cases on a grammar.
pub(crate) fn tries(
    rt: &impl Abort,
    runtime: &HostRuntime,
    question: Question,
    grammar: Grammar,
    cases: &str,
) -> Result<(), Fail> {
    tries_with::<Brand, _>(
        rt,
        runtime,
        Blank::new(1),
        question,
        &grammar,
        cases.as_bytes(),
    )
}
