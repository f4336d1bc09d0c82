// Cases as texts, and their runs.
//
// A case is a paragraph of lines, each a name and what is said, in the notation of `push_said`; lines of one name are
// joined. The run is given `keys`, and `words` with commas between them. IN has the bytes `in`, or is not there where
// these are `none`. The get with the number `get` fails, and the call of the host with the number `call`; the screen
// and the file OUT have so much room as `room` and `file-room` say. At the end `screen` is what was put there, and
// `out` what the file OUT is: `same` as IN, or `none` where there is none, with `..` before what is but the end of it.
// `left` is what is left of the keys, `status` the status, and `acts` how many moments were taken, where a case asks
// for it. The moments are 1, 2, 3 and so on, or that of `clock` and then 0.
use crate::given::{Given, Outcome, outcome_of};
use crate::notation::push_said;
use cm_io::{Clock, Got, MemSource, NoMemory, Source};
use mm_mail::{Status, Words};
use std::alloc::{AllocError, Global};
use std::test::Fail;

// What holds where a case says nothing of it.
const DEFAULTS: &str = "words IN,OUT
in {HEAD}E{LF}
room 70000
file-room 70000
status Done
out same";

const NAMES: [&str; 14] = [
    "#",
    "acts",
    "call",
    "clock",
    "file-room",
    "get",
    "in",
    "keys",
    "left",
    "out",
    "room",
    "screen",
    "status",
    "words",
];

// Runs each case, and fails where something is not as it is said.
pub(crate) fn try_cases(runtime: &HostRuntime, cases: &str) -> Result<(), Fail> {
    for case in cases.split("\n\n") {
        look_at_names(case)?;
        try_case(runtime, case)?;
    }
    Ok(())
}

fn look_at_names(case: &str) -> Result<(), Fail> {
    for line in case.lines() {
        if !is_known(line) {
            return Err(Fail::new(format_args!("no name begins the line {line:?}")));
        }
    }
    Ok(())
}

fn is_known(line: &str) -> bool {
    match line.split_once(' ') {
        Some((name, _)) => NAMES.contains(&name),
        None => line.is_empty(),
    }
}

fn try_case(runtime: &HostRuntime, case: &str) -> Result<(), Fail> {
    let alloc = runtime.alloc();
    let input = said_of(alloc, case, "in")?;
    let mut outcome = outcome_at(runtime, case, &input)?;
    let screen = said_of(alloc, case, "screen")?;
    compare(alloc, case, "screen", outcome.screen.bytes(), &screen)?;
    compare_status(alloc, case, outcome.status)?;
    compare_out(alloc, case, &outcome, &input)?;
    compare_acts(alloc, case, &mut outcome)?;
    compare_left(alloc, case, &mut outcome.keys)
}

// The run of a case.
fn outcome_at(runtime: &HostRuntime, case: &str, input: &[u8]) -> Result<Outcome, NoMemory> {
    let words = words_of(runtime.alloc(), case)?;
    let keys = said_of(runtime.alloc(), case, "keys")?;
    outcome_of(runtime, &words, &given_at(case, &keys, input))
}

fn words_of(alloc: Global, case: &str) -> Result<Words, NoMemory> {
    let mut words = Words::new();
    let said = said_of(alloc, case, "words")?;
    let text = String::from_utf8_lossy(alloc, &said)?;
    for word in text.as_str().split(',') {
        words.push(word);
    }
    Ok(words)
}

fn given_at<'a>(case: &str, keys: &'a [u8], input: &'a [u8]) -> Given<'a> {
    Given {
        keys,
        input: if is_none(input) { None } else { Some(input) },
        first_moment: moment_of(case),
        failing_get: number_of(case, "get"),
        failing_call: number_of(case, "call"),
        screen_room: number_of(case, "room").unwrap_or(0),
        file_room: number_of(case, "file-room").unwrap_or(0),
    }
}

fn is_none(bytes: &[u8]) -> bool {
    bytes == b"none".as_slice()
}

fn compare_out(alloc: Global, case: &str, outcome: &Outcome, input: &[u8]) -> Result<(), Fail> {
    let is = output_of(outcome);
    let said = said_of(alloc, case, "out")?;
    if said.as_slice() == b"same".as_slice() {
        return compare(alloc, case, "out", is, input);
    }
    if said.starts_with(b"..") && is.ends_with(&said[2.min(said.len())..]) {
        return Ok(());
    }
    compare(alloc, case, "out", is, &said)
}

fn output_of(outcome: &Outcome) -> &[u8] {
    match (outcome.host.file("OUT"), outcome.host.output()) {
        (Some(bytes), _) => bytes,
        (None, Some(_)) => b"elsewhere",
        (None, None) => b"none",
    }
}

fn compare(alloc: Global, case: &str, name: &str, is: &[u8], wanted: &[u8]) -> Result<(), Fail> {
    if is == wanted {
        return Ok(());
    }
    let is = String::from_utf8_lossy(alloc, is)?;
    Err(Fail::new(format_args!("{name} {:?} in the case {case}", is.as_str())))
}

fn compare_status(alloc: Global, case: &str, status: Status) -> Result<(), Fail> {
    let is = format!(in alloc; "{status:?}")?;
    if line_of(source_of(case, "status"), "status") == Some(is.as_str()) {
        return Ok(());
    }
    Err(Fail::new(format_args!("status {is} in the case {case}")))
}

fn compare_acts(alloc: Global, case: &str, outcome: &mut Outcome) -> Result<(), Fail> {
    if line_of(case, "acts").is_none() {
        return Ok(());
    }
    let taken = format!(in alloc; "{}", outcome.clock.now().saturating_sub(1))?;
    let wanted = said_of(alloc, case, "acts")?;
    compare(alloc, case, "acts", taken.as_bytes(), &wanted)
}

fn compare_left(alloc: Global, case: &str, keys: &mut MemSource) -> Result<(), Fail> {
    let left = left_of(alloc, keys)?;
    let wanted = said_of(alloc, case, "left")?;
    compare(alloc, case, "left", &left, &wanted)
}

fn left_of(alloc: Global, keys: &mut MemSource) -> Result<Vec<u8>, NoMemory> {
    let mut left = Vec::new(alloc);
    for _key in 0..u64::MAX {
        match keys.get() {
            Got::Byte(key) => left.push(key)?,
            _ => break,
        }
    }
    Ok(left)
}

// What the lines of this name say.
fn said_of(alloc: Global, case: &str, name: &str) -> Result<Vec<u8>, AllocError> {
    let mut said = Vec::new(alloc);
    for line in source_of(case, name).lines() {
        match line.split_once(' ') {
            Some((known, rest)) if known == name => push_said(rest, &mut said)?,
            _ => {}
        }
    }
    Ok(said)
}

// What the first line of this name says, where there is one.
fn line_of<'a>(case: &'a str, name: &str) -> Option<&'a str> {
    for line in case.lines() {
        match line.split_once(' ') {
            Some((known, rest)) if known == name => return Some(rest),
            _ => {}
        }
    }
    None
}

// The case, or the defaults where it has no line of this name.
fn source_of<'a>(case: &'a str, name: &str) -> &'a str {
    match line_of(case, name) {
        Some(_) => case,
        None => DEFAULTS,
    }
}

fn number_of(case: &str, name: &str) -> Option<u32> {
    match line_of(source_of(case, name), name) {
        Some(number) => number.parse().ok(),
        None => None,
    }
}

fn moment_of(case: &str) -> Option<u64> {
    match line_of(case, "clock") {
        Some(moment) => moment.parse().ok(),
        None => None,
    }
}
