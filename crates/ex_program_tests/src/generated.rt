// Runs over generated keys, and their summaries.
ghost use Rattle.std.specs.Prelude.{◌≤◌};
ghost use Rattle.ex_program.specs.declared.progress.TheConstants.{GENERATED_LINES};

use crate::case::try_cases;
use crate::given::{Given, outcome_of, words_of};
use crate::notation::push_said;
use cm_io::{Got, NoMemory, Source};
use ex_program::{GENERATED_LINES, Generator, Status};
use std::alloc::Global;
use std::test::Fail;

// Numbers of lines, and the keys of so many.
const KEYS: &str = "1 DEL F13.TXT{CR}
2 DEL F13.TXT{CR}INFX{^W}INF{ESC}DIR{CR}
11 UNDEL F19.TXT{CR}COPY TTY: F2.TXT{CR}LINE 2{CR}{^Z}DIRECTORY F10.*{CR}DEL F38.TXT{CR}DEL F2.TXT{CR}DEL F35.TXT{CR}DIRECTORY F39.*{CR}COPY TTY: F5.TXT{CR}LINE 8{CR}{^Z}UNDEL F0.TXT{CR}EXPX{DEL}{ESC}{CR}INFX{^W}INF{ESC}DIR{CR}";

// The keys of so many lines.
fn keys_of(alloc: Global, lines: u32) -> Result<Vec<u8>, NoMemory>
    requires { lines ≤ GENERATED_LINES }
{
    let mut source = Generator::new(lines);
    let mut keys = Vec::new(alloc);
    for _key in 0..source.count_left() {
        if let Got::Byte(key) = source.get() {
            keys.push(key)?;
        }
    }
    Ok(keys)
}

// Whether the keys of a number of lines are those that are said.
fn gives(alloc: Global, line: &str) -> Result<bool, NoMemory> {
    let Some((number, said)) = line.split_once(' ') else {
        return Ok(false);
    };
    let lines: u32 = number.parse().unwrap_or(0);
    if lines > GENERATED_LINES {
        return Ok(false);
    }
    let mut keys = String::new(alloc);
    push_said(said, &mut keys)?;
    Ok(keys_of(alloc, lines)?.as_slice() == keys.as_bytes())
}

#[test]
fn generates_the_keys_of_so_many_lines(rt: HostRuntime) -> Result<(), Fail> {
    for line in KEYS.lines() {
        assert!(rt; gives(rt.alloc(), line)?, "{line}");
    }
    Ok(())
}

// No key is taken, nothing is logged, and no file is made.
const SUMMARIES: &str = "words -g,1
keys LOG{CR}
screen lines 1 refused 1 keys 12 shown 32 generations 0{EOL}
out none
left LOG{CR}

words -g,000001
keys LOG{CR}
screen lines 1 refused 1 keys 12 shown 32 generations 0{EOL}
out none
left LOG{CR}

words -g,2
screen lines 2 refused 1 keys 25 shown 126 generations 0{EOL}
out none

words -g,1
room 10
status WriteFault
screen lines 1 re
out none";

// [summary]
#[test]
fn sums_up_a_generated_run(rt: HostRuntime) -> Result<(), Fail> {
    try_cases(&rt, SUMMARIES)
}

// What the summary of so many lines shows.
fn summary_of(runtime: &HostRuntime, lines: &str) -> Result<Vec<u8>, NoMemory> {
    let given = Given {
        keys: b"",
        input: None,
        has_moments: true,
        failing_get: None,
        failing_call: None,
        screen_room: 256,
        log_room: 0,
        file_room: 0,
    };
    let outcome = outcome_of(runtime, &words_of(&["-g", lines]), &given)?;
    if outcome.status != Status::Done {
        return Ok(Vec::new(runtime.alloc()));
    }
    Ok(outcome.screen.bytes().to_vec(runtime.alloc())?)
}

#[test]
fn sums_up_many_lines_twice_alike(rt: HostRuntime) -> Result<(), Fail> {
    let first = summary_of(&rt, "5000")?;
    assert!(rt; first.starts_with(b"lines 5000 refused "));
    assert!(rt; summary_of(&rt, "5000")?.as_slice() == first.as_slice());
    Ok(())
}
