// Cases as texts, and their runs.
//
// A case is a paragraph of lines, each a name and what is said, in the notation of `push_said`; lines of one name are
// joined. The run is given `keys`, and `words` with commas between them. IN has the bytes `in`, or is not there where
// these are `none`. The get with the number `get` fails, and the call of the host with the number `call`; screen, log
// and file have so much room as `room`, `log-room` and `file-room` say. At the end `screen`, `log` and `out` are what
// was put there, with `..` before what is but the end of it, and after it too where it is but a piece; `out` is
// `none` where no file was made, and `elsewhere`
// where its name is not OUT. `left` is what is left of the keys, `status` the status, and `acts` how many moments were
// taken, where the `clock` does not stand.
use crate::given::{Given, Outcome, outcome_of};
use crate::notation::push_said;
use cm_io::{Clock, Got, MemSource, NoMemory, Source};
use ex_program::{Status, Words};
use std::alloc::{AllocError, Global};
use std::test::Fail;

// What holds where a case says nothing of it.
const DEFAULTS: &str = "words -w,-n,OUT
in before
room 4096
log-room 4096
file-room 512
status Done
out {HEAD}E{LF}
acts 0";

const NAMES: [&str; 16] = [
    "#",
    "acts",
    "call",
    "clock",
    "file-room",
    "get",
    "in",
    "keys",
    "left",
    "log",
    "log-room",
    "out",
    "room",
    "screen",
    "status",
    "words",
];

// Runs each case, and fails where something is not as it is said.
pub(crate) fn try_cases(runtime: &HostRuntime, cases: &str) -> Result<(), Fail> {
    for case in cases.split("\n\n") {
        look_at_names(case)?;
        try_case(runtime, case)?;
    }
    Ok(())
}

fn look_at_names(case: &str) -> Result<(), Fail> {
    for line in case.lines() {
        if !is_known(line) {
            return Err(Fail::new(format_args!("no name begins the line {line:?}")));
        }
    }
    Ok(())
}

fn is_known(line: &str) -> bool {
    match line.split_once(' ') {
        Some((name, _)) => NAMES.contains(&name),
        None => line.is_empty(),
    }
}

fn try_case(runtime: &HostRuntime, case: &str) -> Result<(), Fail> {
    let mut outcome = outcome_at(runtime, case)?;
    compare_puts(runtime.alloc(), case, &outcome)?;
    compare_ends(runtime.alloc(), case, &mut outcome)
}

// The run of a case.
fn outcome_at(runtime: &HostRuntime, case: &str) -> Result<Outcome, NoMemory> {
    let alloc = runtime.alloc();
    let keys = said_of(alloc, case, "keys")?;
    let input = said_of(alloc, case, "in")?;
    let words = words_at(alloc, case)?;
    outcome_of(
        runtime,
        &words,
        &given_at(case, keys.as_str(), input.as_str()),
    )
}

fn words_at(alloc: Global, case: &str) -> Result<Words, AllocError> {
    let mut words = Words::new();
    let text = said_of(alloc, case, "words")?;
    if !text.is_empty() {
        for word in text.as_str().split(',') {
            words.push(word);
        }
    }
    Ok(words)
}

fn given_at<'a>(case: &str, keys: &'a str, input: &'a str) -> Given<'a> {
    Given {
        keys: keys.as_bytes(),
        input: if input == "none" {
            None
        } else {
            Some(input.as_bytes())
        },
        has_moments: line_of(case, "clock").is_none(),
        failing_get: number_of(case, "get"),
        failing_call: number_of(case, "call"),
        screen_room: number_of(case, "room").unwrap_or(0),
        log_room: number_of(case, "log-room").unwrap_or(0),
        file_room: number_of(case, "file-room").unwrap_or(0),
    }
}

// Compares what was put, and the bytes of IN with those of before.
fn compare_puts(alloc: Global, case: &str, outcome: &Outcome) -> Result<(), Fail> {
    compare(alloc, case, "screen", outcome.screen.bytes())?;
    compare(alloc, case, "log", outcome.log.bytes())?;
    compare(alloc, case, "out", output_of(outcome))?;
    compare(alloc, case, "in", input_of(outcome))
}

// Compares status, clock and keys.
fn compare_ends(alloc: Global, case: &str, outcome: &mut Outcome) -> Result<(), Fail> {
    compare_status(alloc, case, outcome.status)?;
    let acts = format!(in alloc; "{}", outcome.clock.now().saturating_sub(1))?;
    compare(alloc, case, "acts", acts.as_bytes())?;
    let left = left_of(alloc, &mut outcome.keys)?;
    compare(alloc, case, "left", left.as_slice())
}

fn compare_status(alloc: Global, case: &str, status: Status) -> Result<(), Fail> {
    let is = format!(in alloc; "{status:?}")?;
    if line_of(source_of(case, "status"), "status") == Some(is.as_str()) {
        return Ok(());
    }
    Err(Fail::new(format_args!("status {is} in the case {case}")))
}

fn compare(alloc: Global, case: &str, name: &str, is: &[u8]) -> Result<(), Fail> {
    let said = said_of(alloc, case, name)?;
    if fits(is, said.as_str()) {
        return Ok(());
    }
    let is = String::from_utf8_lossy(alloc, is)?;
    Err(Fail::new(format_args!("{name} {:?} in the case {case}", is.as_str())))
}

// Whether bytes are those that are said, or end with what is said after `..`, or have it in them where `..` stands
// after it too.
fn fits(bytes: &[u8], said: &str) -> bool {
    match said.strip_prefix("..") {
        Some(rest) => match rest.strip_suffix("..") {
            Some(piece) => has_piece(bytes, piece.as_bytes()),
            None => bytes.ends_with(rest.as_bytes()),
        },
        None => bytes == said.as_bytes(),
    }
}

fn has_piece(bytes: &[u8], piece: &[u8]) -> bool {
    for at in 0..bytes.len() {
        if bytes[at..].starts_with(piece) {
            return true;
        }
    }
    false
}

fn input_of(outcome: &Outcome) -> &[u8] {
    match outcome.host.file("IN") {
        Some(bytes) => bytes,
        None => b"none",
    }
}

fn output_of(outcome: &Outcome) -> &[u8] {
    match (outcome.host.file("OUT"), outcome.host.output()) {
        (Some(bytes), _) => bytes,
        (None, Some(_)) => b"elsewhere",
        (None, None) => b"none",
    }
}

fn left_of(alloc: Global, keys: &mut MemSource) -> Result<Vec<u8>, NoMemory> {
    let mut left = Vec::new(alloc);
    for _key in 0..u64::MAX {
        match keys.get() {
            Got::Byte(key) => left.push(key)?,
            _ => break,
        }
    }
    Ok(left)
}

// What the lines of this name say.
fn said_of(alloc: Global, case: &str, name: &str) -> Result<String, AllocError> {
    let mut said = String::new(alloc);
    for line in source_of(case, name).lines() {
        match line.split_once(' ') {
            Some((known, rest)) if known == name => push_said(rest, &mut said)?,
            _ => {}
        }
    }
    Ok(said)
}

// What the first line of this name says, where there is one.
fn line_of<'a>(case: &'a str, name: &str) -> Option<&'a str> {
    for line in case.lines() {
        match line.split_once(' ') {
            Some((known, rest)) if known == name => return Some(rest),
            _ => {}
        }
    }
    None
}

// The case, or the defaults where it has no line of this name.
fn source_of<'a>(case: &'a str, name: &str) -> &'a str {
    match line_of(case, name) {
        Some(_) => case,
        None => DEFAULTS,
    }
}

fn number_of(case: &str, name: &str) -> Option<u32> {
    match line_of(source_of(case, name), name) {
        Some(number) => number.parse().ok(),
        None => None,
    }
}
