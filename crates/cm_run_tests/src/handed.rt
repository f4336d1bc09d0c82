// Lines that are handed in, and those that wait behind them.
ghost use Rattle.std.specs.Prelude.{◌≡◌, ◌<◌};

use crate::tally::Tally;
use cm_blocks::Steps;
use cm_files::OneDirectory;
use cm_io::MemSink;
use cm_line::Line;
use cm_run::{Own, Stop, run_line};
use cm_text::is_text;
use std::marker::Brand;
use std::process::Abort;
use std::sync::ledger::{Blank, Ledger};
use std::test::Fail;

// A line that is handed in where so many wait, on a screen with so much room; what is answered, the marks that are then
// on the screen, and how many lines wait.
#[derive(Clone, Copy)]
struct Case<'a> {
    line: &'a str,
    waits: u64,
    room: u32,
    result: Result<(), Stop>,
    marks: &'a [u8],
    left: u64,
}

// A line of these bytes.
fn line_of(rt: &impl Abort, text: &str) -> Line {
    let mut line = Line::new();
    for byte in text.bytes() {
        assert!(rt; is_text(byte), "{byte} is no text byte");
        assert!(rt; line.push(byte), "the line is full");
    }
    line
}

// The counter wants the runtime itself.
fn is_so_with<L: Ledger, A: Abort>(
    rt: &A,
    runtime: &HostRuntime,
    blank: Blank,
    case: &Case<'_>,
) -> Result<bool, Fail>
    requires name { blank.name ≡ L.name }
    requires parts { blank.parts ≡ L.parts }
    requires some { 0 < L.parts }
{
    let alloc = runtime.alloc();
    let mut steps: Steps<L> = Steps::new(runtime, blank);
    let mut screen = MemSink::new(alloc, case.room)?;
    let mut tally = Tally {
        grammar: Own::new(alloc)?,
        names: OneDirectory::nothing(),
        waits: case.waits,
    };
    let line = line_of(rt, case.line);
    let result = run_line(&mut tally, line.bytes(), 0, &mut screen, &mut steps);
    Ok(result == case.result && screen.bytes() == case.marks && tally.waits == case.left)
}

fn try_case(rt: &impl Abort, runtime: &HostRuntime, case: &Case<'_>) -> Result<(), Fail> {
    let is_so = is_so_with::<Brand, _>(rt, runtime, Blank::new(1), case)?;
    assert!(rt; is_so, "{} before {}", case.line, case.waits);
    Ok(())
}

// A line is obeyed whether it is done or refused, and then those that wait are, which are empty.
#[test]
fn takes_a_line_and_those_that_wait(rt: HostRuntime) -> Result<(), Fail> {
    for (line, waits, marks) in [
        ("", 0, "+"),
        ("ADD 5", 0, "+"),
        ("ADD", 0, "-"),
        ("X", 0, "-"),
        ("QUIT", 1, "+"),
        ("ADD (NUMBER) 5", 3, "+++"),
        ("MUL 5", 4, "-+++"),
    ] {
        let case = Case {
            line,
            waits,
            room: 100,
            result: Ok(()),
            marks: marks.as_bytes(),
            left: 0,
        };
        try_case(&rt, &rt, &case)?;
    }
    Ok(())
}

// Where the screen fails the line that it failed in has acted, and those after it wait.
#[test]
fn takes_no_line_after_a_failed_screen(rt: HostRuntime) -> Result<(), Fail> {
    for (room, marks, left) in [(0, "", 2), (1, "-", 1), (2, "-+", 0)] {
        let case = Case {
            line: "X",
            waits: 3,
            room,
            result: Err(Stop::Screen),
            marks: marks.as_bytes(),
            left,
        };
        try_case(&rt, &rt, &case)?;
    }
    Ok(())
}

// At most 10,000 lines that wait are taken for one line, which is none of them.
#[test]
fn takes_at_most_10_000_lines_that_wait(rt: HostRuntime) -> Result<(), Fail> {
    let marks = [b'+'; 10_001];
    let case = Case {
        line: "",
        waits: 10_003,
        room: 20_000,
        result: Ok(()),
        marks: &marks,
        left: 2,
    };
    try_case(&rt, &rt, &case)
}
