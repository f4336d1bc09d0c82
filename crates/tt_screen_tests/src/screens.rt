// What `tt20` shows of the bytes that it is given.
use crate::notation::push_said;
use cm_io::{MemSink, MemSource, NoMemory};
use std::alloc::Global;
use std::test::Fail;
use tt_screen::{Status, tt20};

// How a run ended, and what it showed.
#[derive(Drop)]
struct Outcome {
    status: Status,
    screen: MemSink,
}

// A run over these bytes, of which one may fail to be got, on a screen with so much room.
fn outcome_of(
    alloc: Global,
    bytes: &[u8],
    failing_get: Option<u32>,
    room: u32,
) -> Result<Outcome, NoMemory> {
    let mut keys = MemSource::new(alloc, bytes, failing_get)?;
    let mut screen = MemSink::new(alloc, room)?;
    let status = tt20(&mut keys, &mut screen);
    Ok(Outcome { status, screen })
}

fn try_case(alloc: Global, case: &str) -> Result<(), Fail> {
    let (given, wanted) = case.split_once('|').ok_or("a case has a bar")?;
    let mut bytes = String::new(alloc);
    push_said(given, &mut bytes)?;
    let mut rows = String::new(alloc);
    push_said(wanted, &mut rows)?;
    let outcome = outcome_of(alloc, bytes.as_bytes(), None, 4096)?;
    if outcome.status == Status::Done && outcome.screen.bytes() == rows.as_bytes() {
        return Ok(());
    }
    Err(Fail::new(format_args!("at {case}")))
}

// Tries cases, one a line: what is given, and what is shown of it.
fn tries(alloc: Global, cases: &str) -> Result<(), Fail> {
    for case in cases.lines() {
        try_case(alloc, case)?;
    }
    Ok(())
}

// A rubout; a row that is full; a bell and a TAB, which do nothing; the first column; a row that is written on again;
// spaces at the end of a row.
const ROWS: &str = "\
|{EOL}
@DIR {RUB}{EOL}|@DIR{EOL}{EOL}
{81*A}{RUB}{RUB}|{79*A}{EOL}
{79*A}B|{79*A}B{EOL}
{80*A}B|{80*A}{EOL}
{80*A}BC{3*BS}D|{79*A}D{EOL}
{200*A}{EOL}B|{80*A}{EOL}B{EOL}
A{BEL}B{TAB}C{DEL}{ESC}|ABC{EOL}
{BS}A{3*BS}B|B{EOL}
AB{CR}C|CB{EOL}
AB{LF}C|AB{EOL}C{EOL}
~ A{3*SP}|~ A{EOL}
{3*EOL}|{EOL}{EOL}{EOL}{EOL}";

// [screen-row]
#[test]
fn shows_what_stands_on_the_rows(rt: HostRuntime) -> Result<(), Fail> {
    tries(rt.alloc(), ROWS)
}

// The first row of 25 is dropped, and all but the last 24 of many.
const KEPT: &str = "\
A{LF}B{22*LF}C|A{EOL}B{EOL}{21*EOL}C{EOL}
A{LF}B{23*LF}C|B{EOL}{22*EOL}C{EOL}
A{100*LF}C|{23*EOL}C{EOL}";

#[test]
fn keeps_the_last_24_rows(rt: HostRuntime) -> Result<(), Fail> {
    tries(rt.alloc(), KEPT)
}

#[test]
fn shows_no_rows_where_the_bytes_fail(rt: HostRuntime) -> Result<(), Fail> {
    let outcome = outcome_of(rt.alloc(), b"AB\r\nC", Some(4), 4096)?;
    assert_eq!(rt; outcome.status, Status::ReadFault);
    assert_eq!(rt; outcome.screen.bytes(), b"?Read fault\r\n".as_slice());
    Ok(())
}

#[test]
fn shows_a_part_where_the_screen_fails(rt: HostRuntime) -> Result<(), Fail> {
    let outcome = outcome_of(rt.alloc(), b"AB\r\nC", None, 5)?;
    assert_eq!(rt; outcome.status, Status::WriteFault);
    assert_eq!(rt; outcome.screen.bytes(), b"AB\r\nC".as_slice());
    let outcome = outcome_of(rt.alloc(), b"AB", Some(0), 4)?;
    assert_eq!(rt; outcome.status, Status::ReadFault);
    assert_eq!(rt; outcome.screen.bytes(), b"?Rea".as_slice());
    Ok(())
}

#[test]
fn each_status_has_its_number(rt: HostRuntime) {
    for (status, number) in [
        (Status::Done, 0),
        (Status::ReadFault, 4),
        (Status::WriteFault, 5),
        (Status::KeyLimit, 7),
    ] {
        assert_eq!(rt; status.number(), number);
    }
}

#[test]
fn the_laws_hold() {
    tt_screen::laws::these_are_the_numbers();
    tt_screen::laws::a_plain_screen_is_a_display();
}
