// A session that makes and removes files, cut short by each fault in turn.
use crate::given::{Given, Outcome, outcome_of, words_of};
use crate::notation::push_said;
use cm_io::{Got, MemSource, NoMemory, Source};
use ex_program::Status;
use std::alloc::{AllocError, Global};
use std::test::Fail;

const SESSION: &str =
    "COPY TTY: A.TXT\rHI\r\x1aCOPY A.TXT A.TXT\rDIRECTORY\rUNDELETE A.TXT\rDELETE A.TXT.2\rEXPUNGE\r";

// The keys of the session that act, each after the reply to the one before: how many keys there are with it, how many
// bytes are shown with its echo, and the image after it.
const ACTING: &str = "0 0 {HEAD}E{LF}
20 26 {HEAD}F OPERATOR A.TXT.1 U 1 0 - 4{LF}HI{EOL}{LF}E{LF}
37 78 {HEAD}F OPERATOR A.TXT.1 D 1 0 0 4{LF}HI{EOL}{LF}F OPERATOR A.TXT.2 U 1 0 - 4{LF}HI{EOL}{LF}E{LF}
47 136 {HEAD}F OPERATOR A.TXT.1 D 1 0 0 4{LF}HI{EOL}{LF}F OPERATOR A.TXT.2 U 1 0 - 4{LF}HI{EOL}{LF}E{LF}
62 215 {HEAD}F OPERATOR A.TXT.1 U 1 0 0 4{LF}HI{EOL}{LF}F OPERATOR A.TXT.2 U 1 0 - 4{LF}HI{EOL}{LF}E{LF}
77 257 {HEAD}F OPERATOR A.TXT.1 U 1 0 0 4{LF}HI{EOL}{LF}F OPERATOR A.TXT.2 D 1 0 - 4{LF}HI{EOL}{LF}E{LF}
85 292 {HEAD}F OPERATOR A.TXT.1 U 1 0 0 4{LF}HI{EOL}{LF}E{LF}";

// What fails, at a number.
#[derive(Clone, Copy, Debug, PartialEq, Eq)]
enum Fault {
    Get,
    Screen,
    Log,
    Host,
}

impl Fault {
    fn status(self) -> Status {
        match self {
            Fault::Get => Status::ReadFault,
            Fault::Screen | Fault::Log => Status::WriteFault,
            Fault::Host => Status::HostFault,
        }
    }

    // What is shown after a prefix of the whole run.
    fn message(self) -> &'static [u8] {
        match self {
            Fault::Get => b"\r\n?Read fault\r\n",
            Fault::Screen | Fault::Log => b"",
            Fault::Host => b"?Host fault\r\n",
        }
    }

    // How many numbers cut the session short, where the outputs say it.
    fn count(self, whole: &Outcome) -> Option<usize> {
        match self {
            // The get after the last key finds that there is none.
            Fault::Get => Some(SESSION.len() + 1),
            Fault::Screen => Some(whole.screen.bytes().len()),
            Fault::Log => Some(whole.log.bytes().len()),
            Fault::Host => None,
        }
    }
}

// The session, with the fault at this number.
fn session(runtime: &HostRuntime, fault: Option<Fault>, number: u32) -> Result<Outcome, NoMemory> {
    let is = |it: Fault| fault == Some(it);
    let given = Given {
        keys: SESSION.as_bytes(),
        input: Some(b"before"),
        has_moments: false,
        failing_get: if is(Fault::Get) { Some(number) } else { None },
        failing_call: if is(Fault::Host) { Some(number) } else { None },
        screen_room: if is(Fault::Screen) { number } else { 4096 },
        log_room: if is(Fault::Log) { number } else { 4096 },
        file_room: 512,
    };
    outcome_of(runtime, &words_of(&["-w", "-n", "OUT"]), &given)
}

// The image after the last key that acts with no more keys, and no more bytes shown, than these.
fn image_after(alloc: Global, keys: usize, shown: usize) -> Result<String, AllocError> {
    let mut said = String::new(alloc);
    for line in ACTING.lines() {
        if let Some(image) = reached(line, keys, shown) {
            said.clear();
            push_said(image, &mut said)?;
        }
    }
    Ok(said)
}

// The image of a line, where its key is reached.
fn reached(line: &'static str, keys: usize, shown: usize) -> Option<&'static str> {
    let (key, rest) = line.split_once(' ')?;
    let (echo, image) = rest.split_once(' ')?;
    if key.parse::<usize>().ok()? <= keys && echo.parse::<usize>().ok()? <= shown {
        Some(image)
    } else {
        None
    }
}

// How many keys of the session are not left.
fn count_taken(keys: &mut MemSource) -> usize {
    for taken in 0..SESSION.len() {
        if keys.get() == Got::End {
            return SESSION.len() - taken;
        }
    }
    0
}

// Whether a prefix of some bytes, with a message after it, is this text.
fn is_after_a_prefix(text: &[u8], message: &[u8], whole: &[u8]) -> bool {
    match text.strip_suffix(message) {
        Some(prefix) => whole.starts_with(prefix),
        None => false,
    }
}

// Whether what was shown and logged is a prefix of what the whole session shows and logs.
fn is_prefix(fault: Fault, outcome: &Outcome, whole: &Outcome) -> bool {
    is_after_a_prefix(
        outcome.screen.bytes(),
        fault.message(),
        whole.screen.bytes(),
    ) && whole.log.bytes().starts_with(outcome.log.bytes())
}

// Whether OUT holds the image, or a prefix of it or is absent where the host failed, and IN is as it was.
fn is_saved(fault: Fault, outcome: &Outcome, image: &[u8]) -> bool {
    let out = match (fault, outcome.host.file("OUT")) {
        (Fault::Host, Some(out)) => image.starts_with(out),
        (Fault::Host, None) => true,
        (_, out) => out == Some(image),
    };
    out && outcome.host.file("IN") == Some(b"before")
}

// Whether the fault cut the session short, and what must stand does: a key whose echo or log line is not whole has not
// acted.
fn is_cut(
    alloc: Global,
    fault: Fault,
    outcome: &mut Outcome,
    whole: &Outcome,
) -> Result<bool, AllocError> {
    let taken = count_taken(&mut outcome.keys);
    let keys = match fault {
        Fault::Log => taken.saturating_sub(1),
        _ => taken,
    };
    let image = image_after(alloc, keys, outcome.screen.bytes().len())?;
    Ok(
        outcome.status == fault.status()
            && is_prefix(fault, outcome, whole)
            && is_saved(fault, outcome, image.as_bytes()),
    )
}

// Whether the fault at this number is met.
fn is_met(runtime: &HostRuntime, fault: Fault, number: u32, whole: &Outcome) -> Result<bool, Fail> {
    let mut outcome = session(runtime, Some(fault), number)?;
    if outcome.status == Status::Done && outcome.screen.bytes() == whole.screen.bytes() {
        return Ok(false);
    }
    if is_cut(runtime.alloc(), fault, &mut outcome, whole)? {
        return Ok(true);
    }
    Err(Fail::new(format_args!("{fault:?} {number}")))
}

// Counts the numbers at which the fault is met, upwards from 0.
fn count_met(runtime: &HostRuntime, fault: Fault, whole: &Outcome) -> Result<usize, Fail> {
    for number in 0..5000u32 {
        if !is_met(runtime, fault, number, whole)? {
            return Ok(number as usize);
        }
    }
    Err(Fail::new("no session is Done"))
}

fn try_fault(runtime: &HostRuntime, fault: Fault) -> Result<(), Fail> {
    let whole = session(runtime, None, 0)?;
    let met = count_met(runtime, fault, &whole)?;
    if whole.status == Status::Done && met == fault.count(&whole).unwrap_or(met) {
        return Ok(());
    }
    Err(Fail::new(format_args!("{fault:?} is met {met} times")))
}

#[test]
fn leaves_what_must_stand_where_the_keys_fail(rt: HostRuntime) -> Result<(), Fail> {
    try_fault(&rt, Fault::Get)
}

#[test]
fn leaves_what_must_stand_where_the_screen_fails(rt: HostRuntime) -> Result<(), Fail> {
    try_fault(&rt, Fault::Screen)
}

#[test]
fn leaves_what_must_stand_where_the_log_fails(rt: HostRuntime) -> Result<(), Fail> {
    try_fault(&rt, Fault::Log)
}

#[test]
fn leaves_what_must_stand_where_the_host_fails(rt: HostRuntime) -> Result<(), Fail> {
    try_fault(&rt, Fault::Host)
}
