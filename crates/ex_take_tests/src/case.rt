// Cases as texts.
//
// A case is a paragraph of lines. `file NAME|TEXT` is a file of OPERATOR, and lines with `#` say what the case is for.
// Each other line is a step: what is asked, on a screen with so much room, what is answered and what is shown, with
// bars between. `take NAME` asks `take` for a file, `keys TEXT` runs the engine over keys, and `lines` takes the lines
// that wait. The steps are done in order, with the EXEC as the one before left it.
ghost use Rattle.std.specs.Prelude.{◌≡◌, ◌<◌};

use crate::files::{cut, exec_of, has, place, shown_as};
use cm_blocks::Steps;
use cm_io::{CountSink, MemSink, MemSource, NoMemory};
use cm_run::{Application, NoClock, Stop, run, run_lines};
use ex_store::Place;
use ex_take::{Exec, Took, take};
use std::alloc::{AllocError, Global};
use std::marker::Brand;
use std::sync::ledger::{Blank, Ledger};
use std::test::Fail;

// The keys of a step, and its screen.
#[derive(Drop)]
struct Outside {
    keys: MemSource,
    screen: MemSink,
}

// What is answered to a step: by `take`, by the engine, or by none, where the EXEC is not at rest.
#[derive(Clone, Copy)]
enum Answer {
    Took(Took),
    Ended(Result<(), Stop>),
    None,
}

fn outside_of(alloc: Global, keys: &str, room: u32) -> Result<Outside, NoMemory> {
    Ok(Outside {
        keys: MemSource::new(alloc, keys.as_bytes(), None)?,
        screen: MemSink::new(alloc, room)?,
    })
}

// Runs an application over at most 100 keys, with no log.
fn run_keys<A: Application, L: Ledger>(
    app: &mut A,
    outside: &mut Outside,
    steps: &mut Steps<L>,
) -> Result<(), Stop> {
    let mut log = CountSink::new();
    run(
        100,
        false,
        app,
        &mut outside.keys,
        &mut outside.screen,
        &mut log,
        &mut NoClock,
        steps,
    )
}

// Takes a file, where the EXEC is at rest.
fn take_file<L: Ledger>(
    exec: &mut Exec,
    file: &Place,
    screen: &mut MemSink,
    steps: &mut Steps<L>,
) -> Answer {
    if !exec.is_at_rest() {
        return Answer::None;
    }
    if !has(exec.store(), &file.directory) {
        return Answer::None;
    }
    Answer::Took(take(exec, file, 0, screen, steps))
}

// What is answered to a step.
fn answer_of<L: Ledger>(
    exec: &mut Exec,
    step: &str,
    name: &str,
    outside: &mut Outside,
    steps: &mut Steps<L>,
) -> Answer {
    if step == "take" {
        let file = place(name);
        return take_file(exec, &file, &mut outside.screen, steps);
    }
    if step == "keys" {
        return Answer::Ended(run_keys(exec, outside, steps));
    }
    Answer::Ended(run_lines(exec, 0, &mut outside.screen, steps))
}

// An answer, as a case writes it.
fn answer_text(alloc: Global, answer: Answer) -> Result<String, AllocError> {
    match answer {
        Answer::Took(took) => format!(in alloc; "{took:?}"),
        Answer::Ended(result) => format!(in alloc; "{result:?}"),
        Answer::None => format!(in alloc; "none"),
    }
}

fn compare(
    alloc: Global,
    step: &str,
    wanted: &str,
    answer: Answer,
    screen: &[u8],
) -> Result<(), Fail> {
    let (answered, shown) = cut(wanted);
    let is = answer_text(alloc, answer)?;
    let shown = shown_as(alloc, shown)?;
    if is.as_str() == answered && screen == shown.as_slice() {
        return Ok(());
    }
    let screen = String::from_utf8_lossy(alloc, screen)?;
    Err(Fail::new(format_args!("{} {:?} at {step}", is.as_str(), screen.as_str())))
}

fn try_step<L: Ledger>(
    alloc: Global,
    exec: &mut Exec,
    line: &str,
    steps: &mut Steps<L>,
) -> Result<(), Fail> {
    let (asked, rest) = cut(line);
    let (room, wanted) = cut(rest);
    let (step, text) = asked.split_once(' ').unwrap_or((asked, ""));
    let mut outside = outside_of(alloc, text, room.parse().unwrap_or(0))?;
    let answer = answer_of(exec, step, text, &mut outside, steps);
    compare(alloc, line, wanted, answer, outside.screen.bytes())
}

// Whether a line of a case is a step.
fn is_step(line: &str) -> bool {
    line.starts_with("take ") || line.starts_with("keys ") || line.starts_with("lines|")
}

fn try_steps<L: Ledger>(
    alloc: Global,
    exec: &mut Exec,
    case: &str,
    steps: &mut Steps<L>,
) -> Result<(), Fail> {
    for line in case.lines() {
        if is_step(line) {
            try_step(alloc, exec, line, steps)?;
        }
    }
    Ok(())
}

fn try_case<L: Ledger>(alloc: Global, case: &str, steps: &mut Steps<L>) -> Result<(), Fail> {
    let mut exec = exec_of(alloc, case)?;
    try_steps(alloc, &mut exec, case, steps)
}

fn try_all<L: Ledger>(alloc: Global, cases: &str, steps: &mut Steps<L>) -> Result<(), Fail> {
    for case in cases.split("\n\n") {
        try_case(alloc, case, steps)?;
    }
    Ok(())
}

// Makes the counter, and tries the cases.
fn try_counted<L: Ledger>(rt: &HostRuntime, blank: Blank, cases: &[u8]) -> Result<(), Fail>
    requires name { blank.name ≡ L.name }
    requires parts { blank.parts ≡ L.parts }
    requires some { 0 < L.parts }
{
    let cases = str::from_utf8(cases)?;
    let mut steps: Steps<L> = Steps::new(rt, blank);
    try_all(rt.alloc(), cases, &mut steps)
}

/// Does the steps of each case, and fails where something is not as it is said.
pub(crate) fn try_cases(rt: &HostRuntime, cases: &str) -> Result<(), Fail> {
    try_counted::<Brand>(rt, Blank::new(1), cases.as_bytes())
}
