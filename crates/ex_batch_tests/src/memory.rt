// The calls that take memory, with enough of it: a control file is read, and its lines are run.
ghost use Rattle.std.specs.Prelude.{◌≡◌, ◌<◌};

use crate::notation::push_said;
use cm_blocks::Steps;
use cm_io::{MemClock, MemSink, NoMemory};
use cm_run::{Own, Stop};
use ex_batch::{ControlFile, Ended, Job, is_label_name, run_batch};
use ex_store::Store;
use std::alloc::{AllocError, Global};
use std::marker::Brand;
use std::sync::ledger::{Blank, Ledger};
use std::test::Fail;

// Where a label stands, if the text can be the name of one.
fn place_of(file: &ControlFile, name: &[u8]) -> Option<usize> {
    if is_label_name(name) {
        file.place(name)
    } else {
        None
    }
}

const FIRST: &[u8] = b"@INF VER";

const LAST: &[u8] = b"@LOG";

// Whether a file of four lines, of which the second is a label and the third is empty, has them.
fn has_its_lines(alloc: Global) -> Result<bool, NoMemory> {
    let file = ControlFile::read(alloc, b"@INF VER\r\nEnd::\n\n@LOG")?;
    Ok(
        file.line(0) == Some(FIRST)
            && file.line(3) == Some(LAST)
            && file.line(4).is_none()
            && place_of(&file, b"eND") == Some(1),
    )
}

#[test]
fn a_control_file_has_its_lines_and_labels(rt: HostRuntime) -> Result<(), Fail> {
    assert!(rt; has_its_lines(rt.alloc())?);
    Ok(())
}

// The run over a control file.
fn run_over<L: Ledger>(
    rt: &HostRuntime,
    blank: Blank,
    file: &ControlFile,
    job: &mut Job,
    screen: &mut MemSink,
    clock: &mut MemClock,
) -> Result<Ended, Stop>
    requires name { blank.name ≡ L.name }
    requires parts { blank.parts ≡ L.parts }
    requires some { 0 < L.parts }
{
    let mut steps: Steps<L> = Steps::new(rt, blank);
    run_batch(file, job, screen, clock, &mut steps)
}

// How the run over these bytes ends, and its screen.
fn outcome_of(rt: &HostRuntime, bytes: &[u8]) -> Result<(Result<Ended, Stop>, MemSink), NoMemory> {
    let alloc = rt.alloc();
    let file = ControlFile::read(alloc, bytes)?;
    let mut job = Job::new(alloc, Own::new(alloc)?, Store::new(alloc)?);
    let mut screen = MemSink::new(alloc, 4096)?;
    let mut clock = MemClock::new(alloc, &[1])?;
    let ended = run_over::<Brand>(rt, Blank::new(1), &file, &mut job, &mut screen, &mut clock);
    Ok((ended, screen))
}

// Each is the lines of a file, and after bars how the run over them ends, and what it shows.
const RUNS: &str = "@INF VER{LF}|Ok(Finished)|@INF VER{EOL} EXEC20 1{EOL}
@GOTO A{LF}@INF VER{LF}a::{LF}@LOG{LF}@INF VER|Ok(Finished)|@GOTO A{EOL}a::{EOL}@LOG{EOL}Logged out{EOL}
@GOTO A|Ok(Stopped(NoLabel))|@GOTO A{EOL}
@DEL A.B{LF}!{LF}X::|Ok(Stopped(NoFile))|@DEL A.B{EOL}?No such file{EOL}!{EOL}X::{EOL}";

// What a text in the notation of `push_said` says.
fn said(alloc: Global, text: &str) -> Result<Vec<u8>, AllocError> {
    let mut bytes = Vec::new(alloc);
    push_said(text, &mut bytes)?;
    Ok(bytes)
}

fn try_case(rt: &HostRuntime, case: &str) -> Result<(), Fail> {
    let alloc = rt.alloc();
    let (lines, rest) = case.split_once('|').unwrap_or((case, ""));
    let (answer, wanted) = rest.split_once('|').unwrap_or((rest, ""));
    let (ended, screen) = outcome_of(rt, &said(alloc, lines)?)?;
    let is = format!(in alloc; "{ended:?}")?;
    if is.as_str() == answer && screen.bytes() == said(alloc, wanted)?.as_slice() {
        return Ok(());
    }
    Err(Fail::new(format_args!("{} for {case}", is.as_str())))
}

#[test]
fn lines_are_run_with_ample_memory(rt: HostRuntime) -> Result<(), Fail> {
    for case in RUNS.lines() {
        try_case(&rt, case)?;
    }
    Ok(())
}
