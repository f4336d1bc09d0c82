// Cases as texts, and their runs.
//
// A case is a paragraph of lines, each a name and what is said, in the notation of `push_said`; lines of one name are
// joined. The run is given `words` with commas between them, over the image IN, which has the file JOB.CTL.1 with the
// bytes `job`, the records `before` in front of it, and those `after` it; or IN is what `in` says, or is not there
// where that is `none`. The call of the host with the number `call` fails; the screen and the file OUT have so much
// room as `room` and `file-room` say. At the end `screen` is what was put there, `status` the status, `moments` how
// many moments were taken, and `out` what the file OUT is: `same` as IN, or `none` where there is none, with `..`
// before what is but the end of it.
use crate::given::{Given, Outcome, outcome_of};
use crate::notation::push_said;
use cm_io::{Clock, MemHost, NoMemory};
use ex_batch::{Status, Words};
use std::alloc::{AllocError, Global};
use std::test::Fail;

// What holds where a case says nothing of it.
const DEFAULTS: &str = "words IN,OUT,JOB.CTL
room 200000
file-room 80000
status Done
out same";

const NAMES: [&str; 13] = [
    "#",
    "before",
    "after",
    "call",
    "file-room",
    "in",
    "job",
    "moments",
    "out",
    "room",
    "screen",
    "status",
    "words",
];

// Runs each case, and fails where something is not as it is said.
pub(crate) fn try_cases(runtime: &HostRuntime, cases: &str) -> Result<(), Fail> {
    for case in cases.split("\n\n") {
        look_at_names(case)?;
        try_case(runtime, case)?;
    }
    Ok(())
}

fn look_at_names(case: &str) -> Result<(), Fail> {
    for line in case.lines() {
        if !is_known(line) {
            return Err(Fail::new(format_args!("no name begins the line {line:?}")));
        }
    }
    Ok(())
}

fn is_known(line: &str) -> bool {
    match line.split_once(' ') {
        Some((name, _)) => NAMES.contains(&name),
        None => NAMES.contains(&line),
    }
}

fn try_case(runtime: &HostRuntime, case: &str) -> Result<(), Fail> {
    let alloc = runtime.alloc();
    let input = input_of(alloc, case)?;
    let mut outcome = outcome_at(runtime, case, &input)?;
    let screen = said_of(alloc, case, "screen")?;
    compare(alloc, case, "screen", outcome.screen.bytes(), &screen)?;
    compare_status(alloc, case, outcome.status)?;
    compare_moments(alloc, case, &mut outcome)?;
    compare_out(alloc, case, &outcome.host, &input)
}

// The run of a case.
fn outcome_at(runtime: &HostRuntime, case: &str, input: &[u8]) -> Result<Outcome, NoMemory> {
    let words = words_of(runtime.alloc(), case)?;
    outcome_of(runtime, &words, &given_at(case, input))
}

fn words_of(alloc: Global, case: &str) -> Result<Words, NoMemory> {
    let mut words = Words::new();
    let said = said_of(alloc, case, "words")?;
    let text = String::from_utf8_lossy(alloc, &said)?;
    for word in text.as_str().split(',') {
        words.push(word);
    }
    Ok(words)
}

fn given_at<'a>(case: &str, input: &'a [u8]) -> Given<'a> {
    Given {
        input: if is_none(input) { None } else { Some(input) },
        failing_call: number_of(case, "call"),
        screen_room: number_of(case, "room").unwrap_or(0),
        file_room: number_of(case, "file-room").unwrap_or(0),
    }
}

fn is_none(bytes: &[u8]) -> bool {
    bytes == b"none".as_slice()
}

// The bytes of IN.
fn input_of(alloc: Global, case: &str) -> Result<Vec<u8>, AllocError> {
    if line_of(case, "in").is_some() {
        return said_of(alloc, case, "in");
    }
    let job = said_of(alloc, case, "job")?;
    let size = job.len();
    let record = format!(in alloc; "F OPERATOR JOB.CTL.1 U 1 0 - {size}\n")?;
    let mut image = Vec::new(alloc);
    push_said("{HEAD}", &mut image)?;
    image.extend_from_slice(&said_of(alloc, case, "before")?)?;
    image.extend_from_slice(record.as_bytes())?;
    image.extend_from_slice(&job)?;
    image.push(b'\n')?;
    image.extend_from_slice(&said_of(alloc, case, "after")?)?;
    image.extend_from_slice(b"E\n")?;
    Ok(image)
}

fn compare_out(alloc: Global, case: &str, host: &MemHost, input: &[u8]) -> Result<(), Fail> {
    let is = output_of(host);
    let said = said_of(alloc, case, "out")?;
    if said.as_slice() == b"same".as_slice() {
        return compare(alloc, case, "out", is, input);
    }
    if said.starts_with(b"..") && is.ends_with(&said[2.min(said.len())..]) {
        return Ok(());
    }
    compare(alloc, case, "out", is, &said)
}

fn output_of(host: &MemHost) -> &[u8] {
    match host.output() {
        Some(bytes) => bytes,
        None => b"none",
    }
}

fn compare(alloc: Global, case: &str, name: &str, is: &[u8], wanted: &[u8]) -> Result<(), Fail> {
    if is == wanted {
        return Ok(());
    }
    let is = String::from_utf8_lossy(alloc, is)?;
    Err(Fail::new(format_args!("{name} {:?} in the case {case}", is.as_str())))
}

fn compare_status(alloc: Global, case: &str, status: Status) -> Result<(), Fail> {
    let is = format!(in alloc; "{status:?}")?;
    if line_of(source_of(case, "status"), "status") == Some(is.as_str()) {
        return Ok(());
    }
    Err(Fail::new(format_args!("status {is} in the case {case}")))
}

fn compare_moments(alloc: Global, case: &str, outcome: &mut Outcome) -> Result<(), Fail> {
    if line_of(case, "moments").is_none() {
        return Ok(());
    }
    let taken = format!(in alloc; "{}", outcome.clock.now().saturating_sub(1))?;
    let wanted = said_of(alloc, case, "moments")?;
    compare(alloc, case, "moments", taken.as_bytes(), &wanted)
}

// What the lines of this name say.
fn said_of(alloc: Global, case: &str, name: &str) -> Result<Vec<u8>, AllocError> {
    let mut said = Vec::new(alloc);
    for line in source_of(case, name).lines() {
        match line.split_once(' ') {
            Some((known, rest)) if known == name => push_said(rest, &mut said)?,
            _ => {}
        }
    }
    Ok(said)
}

// What the first line of this name says, where there is one.
fn line_of<'a>(case: &'a str, name: &str) -> Option<&'a str> {
    for line in case.lines() {
        match line.split_once(' ') {
            Some((known, rest)) if known == name => return Some(rest),
            _ => {}
        }
    }
    None
}

// The case, or the defaults where it has no line of this name.
fn source_of<'a>(case: &'a str, name: &str) -> &'a str {
    match line_of(case, name) {
        Some(_) => case,
        None => DEFAULTS,
    }
}

fn number_of(case: &str, name: &str) -> Option<u32> {
    match line_of(source_of(case, name), name) {
        Some(number) => number.parse().ok(),
        None => None,
    }
}
