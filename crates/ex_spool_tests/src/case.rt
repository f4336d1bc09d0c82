// Cases as texts, and their runs.
//
// A case is a paragraph of lines, each a name and what is said, in the notation of `push_said`; lines of one name are
// joined. The run is given `words` with commas between them, over the image IN, which has the file A..1 with the bytes
// `file`, or no file where these are `none`, and the `queue`; or IN is what `in` says, or is not there where that is
// `none`. The moment is `moment`. The call of the host with the number `call` fails; the screen and the file OUT have
// so much room as `room` and `file-room` say. At the end `screen` is what was put there, `left` the queue of the image
// OUT, or `none` where no file was made, and `out` what OUT is instead, and `status` the status.
use crate::notation::push_said;
use cm_io::{MemClock, MemHost, MemSink, NoMemory};
use ex_spool::{Status, Words, spool20};
use std::alloc::{AllocError, Global};
use std::test::Fail;

// What holds where a case says nothing of it.
const DEFAULTS: &str = "words IN,OUT
file HI{CR}{LF}
queue Q OPERATOR A..1 1 NARROW - A {LF}
moment 0
room 65536
file-room 65536
status Done";

const NAMES: [&str; 13] = [
    "#",
    "call",
    "file",
    "file-room",
    "in",
    "left",
    "moment",
    "out",
    "queue",
    "room",
    "screen",
    "status",
    "words",
];

// What is at the end of a run.
#[derive(Drop)]
struct Outcome {
    status: Status,
    screen: MemSink,
    host: MemHost,
}

// Runs each case, and fails where something is not as it is said.
pub(crate) fn try_cases(alloc: Global, cases: &str) -> Result<(), Fail> {
    for case in cases.split("\n\n") {
        look_at_names(case)?;
        try_case(alloc, case)?;
    }
    Ok(())
}

fn look_at_names(case: &str) -> Result<(), Fail> {
    for line in case.lines() {
        if !is_known(line) {
            return Err(Fail::new(format_args!("no name begins the line {line:?}")));
        }
    }
    Ok(())
}

fn is_known(line: &str) -> bool {
    match line.split_once(' ') {
        Some((name, _)) => NAMES.contains(&name),
        None => NAMES.contains(&line),
    }
}

fn try_case(alloc: Global, case: &str) -> Result<(), Fail> {
    let outcome = outcome_of(alloc, case)?;
    let screen = said_of(alloc, case, "screen")?;
    compare(alloc, case, "screen", outcome.screen.bytes(), &screen)?;
    let wanted = wanted_of(alloc, case)?;
    compare(alloc, case, "out", output_of(&outcome.host), &wanted)?;
    compare_status(alloc, case, outcome.status)
}

// The run of a case.
fn outcome_of(alloc: Global, case: &str) -> Result<Outcome, NoMemory> {
    let words = words_of(alloc, case)?;
    let mut host = host_of(alloc, case)?;
    let mut screen = MemSink::new(alloc, number_of(case, "room"))?;
    let mut clock = MemClock::new(alloc, &[u64::from(number_of(case, "moment"))])?;
    let status = spool20(alloc, &words, &mut host, &mut screen, &mut clock);
    Ok(Outcome {
        status,
        screen,
        host,
    })
}

fn words_of(alloc: Global, case: &str) -> Result<Words, NoMemory> {
    let mut words = Words::new();
    let said = said_of(alloc, case, "words")?;
    let text = String::from_utf8_lossy(alloc, &said)?;
    for word in text.as_str().split(',') {
        words.push(word);
    }
    Ok(words)
}

fn host_of(alloc: Global, case: &str) -> Result<MemHost, NoMemory> {
    let room = number_of(case, "file-room");
    let input = input_of(alloc, case)?;
    let held = if input.as_slice() == b"none".as_slice() {
        None
    } else {
        Some(input.as_slice())
    };
    match line_of(case, "call") {
        Some(call) => MemHost::new(alloc, "IN", held, room, &[call.parse().unwrap_or(0)]),
        None => MemHost::new(alloc, "IN", held, room, &[]),
    }
}

// The bytes of IN.
fn input_of(alloc: Global, case: &str) -> Result<Vec<u8>, AllocError> {
    if line_of(case, "in").is_some() {
        return said_of(alloc, case, "in");
    }
    image_of(alloc, case, &said_of(alloc, case, "queue")?)
}

// What OUT is to be.
fn wanted_of(alloc: Global, case: &str) -> Result<Vec<u8>, AllocError> {
    if line_of(case, "out").is_some() {
        return said_of(alloc, case, "out");
    }
    let left = said_of(alloc, case, "left")?;
    if left.as_slice() == b"none".as_slice() {
        return Ok(left);
    }
    image_of(alloc, case, &left)
}

// An image with the file of a case, and a queue.
fn image_of(alloc: Global, case: &str, queue: &[u8]) -> Result<Vec<u8>, AllocError> {
    let file = said_of(alloc, case, "file")?;
    let mut image = Vec::new(alloc);
    push_said("{HEAD}", &mut image)?;
    if file.as_slice() != b"none".as_slice() {
        let size = file.len();
        let line = format!(in alloc; "F OPERATOR A..1 U 1 0 - {size}\n")?;
        image.extend_from_slice(line.as_bytes())?;
        image.extend_from_slice(&file)?;
        image.push(b'\n')?;
    }
    image.extend_from_slice(queue)?;
    image.extend_from_slice(b"E\n")?;
    Ok(image)
}

fn output_of(host: &MemHost) -> &[u8] {
    match host.output() {
        Some(bytes) => bytes,
        None => b"none",
    }
}

fn compare(alloc: Global, case: &str, name: &str, is: &[u8], wanted: &[u8]) -> Result<(), Fail> {
    if is == wanted {
        return Ok(());
    }
    let is = String::from_utf8_lossy(alloc, is)?;
    Err(Fail::new(format_args!("{name} {:?} in the case {case}", is.as_str())))
}

fn compare_status(alloc: Global, case: &str, status: Status) -> Result<(), Fail> {
    let is = format!(in alloc; "{status:?}")?;
    if line_of(source_of(case, "status"), "status") == Some(is.as_str()) {
        return Ok(());
    }
    Err(Fail::new(format_args!("status {is} in the case {case}")))
}

// What the lines of this name say.
fn said_of(alloc: Global, case: &str, name: &str) -> Result<Vec<u8>, AllocError> {
    let mut said = Vec::new(alloc);
    for line in source_of(case, name).lines() {
        match line.split_once(' ') {
            Some((known, rest)) if known == name => push_said(rest, &mut said)?,
            _ => {}
        }
    }
    Ok(said)
}

// What the first line of this name says, where there is one.
fn line_of<'a>(case: &'a str, name: &str) -> Option<&'a str> {
    for line in case.lines() {
        match line.split_once(' ') {
            Some((known, rest)) if known == name => return Some(rest),
            _ => {}
        }
    }
    None
}

// The case, or the defaults where it has no line of this name.
fn source_of<'a>(case: &'a str, name: &str) -> &'a str {
    match line_of(case, name) {
        Some(_) => case,
        None => DEFAULTS,
    }
}

fn number_of(case: &str, name: &str) -> u32 {
    match line_of(source_of(case, name), name) {
        Some(number) => number.parse().unwrap_or(0),
        None => 0,
    }
}
