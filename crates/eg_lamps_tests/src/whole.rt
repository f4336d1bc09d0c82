// Whole runs.
use crate::given::{Case, leaves, outcome_of, try_cases};
use std::test::Fail;

fn case<'a>(keys: &'a [u8], screen: &'a [u8], levels: [u64; 4]) -> Case<'a> {
    Case {
        keys,
        screen,
        levels,
    }
}

// [lamp]
#[test]
fn sets_lamps(rt: HostRuntime) -> Result<(), Fail> {
    let cases = [
        case(b"", b"@", [0, 0, 0, 0]),
        case(b"\r", b"@\r\n@", [0, 0, 0, 0]),
        case(b"SET HALL 40\r", b"@SET HALL 40\r\n@", [40, 0, 0, 0]),
        case(
            b"set (lamp) kitchen (to) 100\r",
            b"@set (lamp) kitchen (to) 100\r\n@",
            [0, 100, 0, 0],
        ),
        // A brightness past the limit is refused by the act, and the lamp stays.
        case(
            b"S STU 5\rS STU 101\r",
            b"@S STU 5\r\n@S STU 101\r\n?Brightness is 0 to 100\r\n@",
            [0, 0, 0, 5],
        ),
    ];
    try_cases(&rt, &cases)
}

#[test]
fn dims_lamps(rt: HostRuntime) -> Result<(), Fail> {
    let cases = [
        case(b"S H 50\rD H\r", b"@S H 50\r\n@D H\r\n@", [40, 0, 0, 0]),
        case(
            b"S H 50\rDIM (LAMP IN) HALL /BY:15\r",
            b"@S H 50\r\n@DIM (LAMP IN) HALL /BY:15\r\n@",
            [35, 0, 0, 0],
        ),
        case(
            b"S STA 9\rD STA\r",
            b"@S STA 9\r\n@D STA\r\n@",
            [0, 0, 0, 0],
        ),
        case(
            b"S STA 9\rD STA/B:8\r",
            b"@S STA 9\r\n@D STA/B:8\r\n@",
            [0, 0, 1, 0],
        ),
        case(
            b"D H /BY\rD H /TO:1\rD H /BY:\r",
            b"@D H /BY\r\n?Switch needs a value\r\n@D H /TO:1\r\n?Unrecognized keyword\r\n@D H /BY:\r\n\
                ?Invalid number\r\n@",
            [0, 0, 0, 0],
        ),
    ];
    try_cases(&rt, &cases)
}

#[test]
fn lists_lamps_and_notes(rt: HostRuntime) -> Result<(), Fail> {
    let cases = [
        case(
            b"LIST\r",
            b"@LIST\r\nHALL 0\r\nKITCHEN 0\r\nSTAIRS 0\r\nSTUDY 0\r\n@",
            [0, 0, 0, 0],
        ),
        case(
            b"S STU 7\rNAME (LAMP IN) STUDY \"by the \"\"red\"\" door\"\rL\r",
            b"@S STU 7\r\n@NAME (LAMP IN) STUDY \"by the \"\"red\"\" door\"\r\n@L\r\nHALL 0\r\nKITCHEN 0\r\n\
                STAIRS 0\r\nSTUDY 7 by the \"red\" door\r\n@",
            [0, 0, 0, 7],
        ),
        // A note goes with an empty one.
        case(
            b"N K \"a\"\rN K \"\"\rL\r",
            b"@N K \"a\"\r\n@N K \"\"\r\n@L\r\nHALL 0\r\nKITCHEN 0\r\nSTAIRS 0\r\nSTUDY 0\r\n@",
            [0, 0, 0, 0],
        ),
        // 39 bytes, and 40.
        case(
            b"N H \"A23456789 B23456789 C23456789 D23456789\"\rL\r",
            b"@N H \"A23456789 B23456789 C23456789 D23456789\"\r\n@L\r\n\
                HALL 0 A23456789 B23456789 C23456789 D23456789\r\nKITCHEN 0\r\nSTAIRS 0\r\nSTUDY 0\r\n@",
            [0, 0, 0, 0],
        ),
        case(
            b"N H \"A23456789 B23456789 C23456789 D23456789\"\"\"\r",
            b"@N H \"A23456789 B23456789 C23456789 D23456789\"\"\"\r\n?Field too long\r\n@",
            [0, 0, 0, 0],
        ),
    ];
    try_cases(&rt, &cases)
}

// [confirmation]
#[test]
fn acts_on_confirmed_lines_alone(rt: HostRuntime) -> Result<(), Fail> {
    let cases = [
        case(b"S H 50", b"@S H 50", [0, 0, 0, 0]),
        case(
            b"S H 50 X\r",
            b"@S H 50 X\r\n?Not confirmed\r\n@",
            [0, 0, 0, 0],
        ),
        case(b"S H 50\x03", b"@S H 50^C\r\n@", [0, 0, 0, 0]),
        case(
            b"S S 5\r",
            b"@S S 5\r\n?Value not accepted\r\n@",
            [0, 0, 0, 0],
        ),
        // What control-H brings back is before the fault, and may be mended.
        case(
            b"S ATTIC 5\r\x08H 5\r",
            b"@S ATTIC 5\r\n?Value not accepted\r\n@S H 5\r\n@",
            [5, 0, 0, 0],
        ),
    ];
    try_cases(&rt, &cases)
}

#[test]
fn completes_what_was_begun(rt: HostRuntime) -> Result<(), Fail> {
    let cases = [
        case(
            b"S\x1bK\x1b7\r",
            b"@SET (LAMP IN) KITCHEN (TO) 7\r\n@",
            [0, 7, 0, 0],
        ),
        case(b"SET S\x1bA\x1b", b"@SET ST\x07AIRS (TO) ", [0, 0, 0, 0]),
        case(b"D H /\x1b", b"@D H /BY:", [0, 0, 0, 0]),
        case(b"SET X\x1b", b"@SET X\x07", [0, 0, 0, 0]),
    ];
    try_cases(&rt, &cases)
}

#[test]
fn explains_what_may_come(rt: HostRuntime) -> Result<(), Fail> {
    let cases = [
        case(
            b"?",
            b"@? confirm with carriage return\r\n or one of the following:\r\n  DIM\r\n  LIST\r\n  NAME\
                \r\n  QUIT\r\n  SET\r\n@",
            [0, 0, 0, 0],
        ),
        case(
            b"S ?",
            b"@S ? guide word (LAMP IN)\r\n or room\r\n@S ",
            [0, 0, 0, 0],
        ),
        case(
            b"D K ?",
            b"@D K ? confirm with carriage return\r\n or one of the following:\r\n  /BY:\r\n@D K ",
            [0, 0, 0, 0],
        ),
    ];
    try_cases(&rt, &cases)
}

#[test]
fn takes_no_key_after_quit(rt: HostRuntime) -> Result<(), Fail> {
    let mut outcome = outcome_of(&rt, b"Q\rLIST\r", None, 4096)?;
    let is_done = outcome.end.result == Ok(()) && outcome.screen.bytes() == b"@Q\r\n".as_slice();
    assert!(rt; is_done && leaves(&mut outcome.keys, b"LIST\r"));
    Ok(())
}
