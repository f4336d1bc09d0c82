// What stands where a run is cut, by its trace.
//
// A trace is a text of events, one a line, in the order in which they happen: `get`, a key is asked for; `show TEXT`,
// the text is put on the screen; `log TEXT`, it is put on the log; `act TEXT`, it is what the state is from there on.
ghost use Rattle.std.specs.Prelude.{◌≡◌, map, IfOk, OnOk};
ghost use Rattle.std.specs.Str.Lines.{lines};
ghost use Rattle.cm_io_tests.specs.Cut.{outcome_of, stands_at};
ghost use Rattle.cm_io_tests.specs.Steps.{Gets, GoesOn, Happens, Puts};

use crate::event::split;
use crate::text::push_meaning;
use std::alloc::{AllocError, Global};

/// What fails of the outside, if anything: the get after so many; the screen, and the log, after so many bytes.
#[derive(Clone, Copy, Debug, PartialEq, Eq)]
pub struct Faults {
    pub gets: Option<usize>,
    pub screen: Option<usize>,
    pub log: Option<usize>,
}

/// Where a run stopped.
#[derive(Clone, Copy, Debug, PartialEq, Eq)]
pub enum Stop {
    /// At its end.
    End,
    /// Where the keys failed.
    Keys,
    /// Where the screen failed.
    Screen,
    /// Where the log failed.
    Log,
}

/// What stands where a run stopped.
#[derive(Drop)]
pub struct Stands {
    pub stop: Stop,
    pub gets: usize,
    pub screen: Vec<u8>,
    pub log: Vec<u8>,
    pub state: Vec<u8>,
}

/// What stands where a trace is cut by the first of these faults that it meets.
pub fn stands_at(alloc: Global, trace: &str, faults: &Faults) -> Result<Stands, AllocError>
    ensures { IfOk result (λ it. outcome_of it ≡ stands_at faults.now trace.now) }
{
    let lines = lines_of(alloc, trace)?;
    let mut stands = Stands {
        stop: Stop::End,
        gets: 0,
        screen: Vec::new(alloc),
        log: Vec::new(alloc),
        state: Vec::new(alloc),
    };
    go_on(&lines, faults, &mut stands)?;
    Ok(stands)
}

// The lines of a trace.
fn lines_of(alloc: Global, trace: &str) -> Result<Vec<&str>, AllocError>
    ensures { IfOk result (λ it. map (λ line. line.now) it.items ≡ lines trace.now) }
{
    trace.lines().collect(alloc)
}

// Lets the events of these lines happen, up to the first that fails.
fn go_on(lines: &[&str], faults: &Faults, stands: &mut Stands) -> Result<(), AllocError>
    ensures { OnOk result (GoesOn faults.now stands.old (map (λ line. line.now) lines.now) stands.new) }
{
    match lines {
        [] => Ok(()),
        [line, more @ ..] => {
            happen(line.as_bytes(), faults, stands)?;
            match stands.stop {
                Stop::End => go_on(more, faults, stands),
                Stop::Keys | Stop::Screen | Stop::Log => Ok(()),
            }
        }
    }
}

// What the event of one line adds, and where it stops the run, if it does.
fn happen(line: &[u8], faults: &Faults, stands: &mut Stands) -> Result<(), AllocError>
    ensures { OnOk result (Happens faults.now stands.old line.now stands.new) }
{
    let (kind, text) = split(line);
    if kind == b"get".as_slice() {
        stands.stop = get(faults.gets, &mut stands.gets);
        return Ok(());
    }
    if kind == b"show".as_slice() {
        stands.stop = put(text, faults.screen, Stop::Screen, &mut stands.screen)?;
        return Ok(());
    }
    if kind == b"log".as_slice() {
        stands.stop = put(text, faults.log, Stop::Log, &mut stands.log)?;
        return Ok(());
    }
    stands.state.clear();
    push_meaning(text, &mut stands.state)
}

// Counts a get, and stops where no more are given.
#[tactic(auto, unfolding(crate::specs::Cut::room_of))]
fn get(fault: Option<usize>, gets: &mut usize) -> Stop
    ensures { Gets fault gets.old gets.new result }
{
    if *gets >= fault.unwrap_or(usize::MAX) {
        return Stop::Keys;
    }
    *gets += 1;
    Stop::End
}

// Puts what there is room for, and stops where that is not all.
#[tactic(auto, unfolding(crate::specs::Cut::room_of))]
fn put(
    text: &[u8],
    fault: Option<usize>,
    stop: Stop,
    bytes: &mut Vec<u8>,
) -> Result<Stop, AllocError>
    ensures { IfOk result (λ it. Puts fault stop bytes.old.items text.now bytes.new.items it) }
{
    push_meaning(text, bytes)?;
    let room = fault.unwrap_or(usize::MAX);
    if bytes.len() > room {
        bytes.truncate(room);
        return Ok(stop);
    }
    Ok(Stop::End)
}
