// Runs that a fault of the outside cuts short.
use crate::given::{End, leaves, outcome_of};
use cm_io::NoMemory;
use cm_run::{Stop, status_of};
use std::test::Fail;

const KEYS: &[u8] = b"S H 50\rS H 101\r";

// A run that a fault cuts short, and what is to be at its end.
#[derive(Clone, Copy)]
struct Cut<'a> {
    failing_get: Option<u32>,
    room: u32,
    why: Stop,
    screen: &'a [u8],
    brightness: u64,
    left: &'a [u8],
}

fn is_so(runtime: &HostRuntime, cut: &Cut<'_>) -> Result<bool, NoMemory> {
    let mut outcome = outcome_of(runtime, KEYS, cut.failing_get, cut.room)?;
    let end = End {
        result: Err(cut.why),
        levels: [cut.brightness, 0, 0, 0],
    };
    Ok(
        outcome.end == end
            && outcome.screen.bytes() == cut.screen
            && leaves(&mut outcome.keys, cut.left),
    )
}

// [run-cause]
#[test]
fn stops_where_the_keys_fail(rt: HostRuntime) -> Result<(), Fail> {
    let cut = Cut {
        failing_get: Some(8),
        room: 4096,
        why: Stop::Keys,
        screen: b"@S H 50\r\n@S",
        brightness: 50,
        left: b" H 101\r",
    };
    assert!(rt; is_so(&rt, &cut)?);
    Ok(())
}

// A run on a screen with so much room.
fn on_screen<'a>(room: u32, screen: &'a [u8], brightness: u64, left: &'a [u8]) -> Cut<'a> {
    Cut {
        failing_get: None,
        room,
        why: Stop::Screen,
        screen,
        brightness,
        left,
    }
}

#[test]
fn takes_no_key_after_a_failed_screen(rt: HostRuntime) -> Result<(), Fail> {
    // In the first prompt, in an echo, in that of the key that confirms, in the next prompt and in a reply.
    for cut in [
        on_screen(0, b"", 0, KEYS),
        on_screen(5, b"@S H ", 0, b"0\rS H 101\r"),
        on_screen(8, b"@S H 50\r", 0, b"S H 101\r"),
        on_screen(9, b"@S H 50\r\n", 50, b"S H 101\r"),
        on_screen(20, b"@S H 50\r\n@S H 101\r\n?", 50, b""),
    ] {
        assert!(rt; is_so(&rt, &cut)?, "{}", cut.room);
    }
    Ok(())
}

#[test]
fn each_end_has_its_number(rt: HostRuntime) {
    for (result, number) in [
        (Ok(()), 0),
        (Err(Stop::Limit), 0),
        (Err(Stop::Keys), 1),
        (Err(Stop::Screen), 2),
        (Err(Stop::Memory), 3),
    ] {
        assert_eq!(rt; status_of(result), number);
    }
}
