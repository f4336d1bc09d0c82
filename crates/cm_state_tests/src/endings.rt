// What is asked of a line at an ending, and what is answered.

use crate::cases::{ended, line};
use crate::grammars::fields;
use crate::help::shown;
use crate::recognition::put_in;
use cm_blocks::{Ending, Grammar};
use cm_line::Line;
use cm_recognise::Mode;
use std::alloc::Global;
use std::process::Abort;
use std::test::Fail;

// What `?` shows, or what goes in.
#[derive(Clone, Copy)]
pub(crate) enum Question {
    Help,
    Completion(Mode),
}

impl Question {
    // What parts its cases.
    fn separator(self) -> &'static str {
        match self {
            Question::Help => "\n\n",
            Question::Completion(_) => "\n",
        }
    }
}

// Tries cases: an ending, a line, and the answer.
pub(crate) fn tries(
    rt: &impl Abort,
    alloc: Global,
    question: Question,
    cases: &str,
) -> Result<(), Fail> {
    let grammar = fields(alloc)?;
    for case in cases.split(question.separator()) {
        try_case(rt, alloc, question, case, &grammar)?;
    }
    Ok(())
}

fn try_case(
    rt: &impl Abort,
    alloc: Global,
    question: Question,
    case: &str,
    grammar: &Grammar,
) -> Result<(), Fail> {
    let Some((ending, text, wanted)) = ended(case) else {
        return Err(Fail::from("a case"));
    };
    let found = answer(rt, alloc, question, ending, &line(rt, text), grammar)?;
    assert_eq!(rt; found.as_str(), wanted, "at {case}");
    Ok(())
}

fn answer(
    rt: &impl Abort,
    alloc: Global,
    question: Question,
    ending: Ending,
    line: &Line,
    grammar: &Grammar,
) -> Result<String, Fail> {
    match question {
        Question::Help => shown(rt, alloc, ending, line, grammar),
        Question::Completion(mode) => put_in(alloc, mode, ending, line, grammar),
    }
}
