// Keys that are typed into a file.
use crate::bytes::{are_bytes, bytes_of, cut};
use cm_io::MemSink;
use ex_commands::{Data, DataTurn};
use ex_generations::FILE_LIMIT;
use std::process::Abort;

// The outcome of the keys: the last turn, the bytes, and what is shown.
fn is_typed(
    rt: &(impl Abort + AllocGlobal),
    turn: DataTurn,
    typed: &Data,
    sink: &MemSink,
    wanted: &str,
) {
    let (name, wanted) = cut(wanted);
    let (bytes, shown) = cut(wanted);
    let said = format!(in rt.alloc(); "{turn:?}").expect(rt, "memory");
    assert_eq!(rt; said.as_str(), name, "{wanted}");
    are_bytes(rt, typed.bytes(), bytes);
    are_bytes(rt, sink.bytes(), shown);
}

/// Presses keys one after the other: the outcome of the last.
pub(crate) fn press(typed: &mut Data, keys: &[u8], sink: &mut MemSink) -> DataTurn {
    let mut turn = DataTurn::More;
    for key in keys {
        typed.echo(*key, sink);
        turn = typed.take(*key);
    }
    turn
}

// Types keys into an empty file, on a screen with room for so many bytes.
fn types(rt: &(impl Abort + AllocGlobal), keys: &[u8], room: u32, wanted: &str) {
    let mut typed = Data::new(rt.alloc()).expect(rt, "memory");
    let mut sink = MemSink::new(rt.alloc(), room).expect(rt, "memory");
    let turn = press(&mut typed, keys, &mut sink);
    is_typed(rt, turn, &typed, &sink, wanted);
}

// A case: the keys, and their outcome.
fn types_line(rt: &(impl Abort + AllocGlobal), room: u32, line: &str) {
    let (keys, wanted) = cut(line);
    let keys = bytes_of(rt.alloc(), keys).expect(rt, "memory");
    types(rt, &keys, room, wanted);
}

fn types_lines(rt: &(impl Abort + AllocGlobal), room: u32, cases: &str) {
    for line in cases.lines() {
        types_line(rt, room, line.trim_start());
    }
}

#[test]
fn keys_are_shown_and_put_in(rt: HostRuntime) {
    let cases = "|More||
        A^Ib ~?|More|A^Ib ~?|A b ~?
        A^M|More|A^M^J|A^M^J
        A^JB|More|A^M^JB|A^M^JB
        ^M^J|More|^M^J^M^J|^M^J^M^J
        AB^?|More|A|AB^H ^H
        ^I^?^?|More|| ^H ^H^G
        ^?|More||^G
        A^M^?|More|A^M^J|A^M^J^G
        A^MB^?^?|More|A^M^J|A^M^JB^H ^H^G
        A^M^Z|Write|A^M^J|A^M^J^^Z^M^J
        ^Z|Write||^^Z^M^J
        A^M^C|Dropped||A^M^J^^C^M^J";
    types_lines(&rt, 100, cases);
}

// TAB, the ends of a line, control-C, control-Z, DEL and from space to tilde.
fn is_meant(key: u8) -> bool {
    matches!(key, 3 | 9 | 10 | 13 | 26 | 32..=127)
}

#[test]
fn other_keys_ring(rt: HostRuntime) {
    for key in 0..=255_u8 {
        if !is_meant(key) {
            types(&rt, &[b'A', key], 100, "More|A|A^G");
        }
    }
}

#[test]
fn a_key_has_its_effect_when_its_echo_fails(rt: HostRuntime) {
    let cases = "AB|More|AB|A
        ^M|More|^M^J|^M
        A^?|More||A
        A^G|More|A|A
        ^Z|Write||^^
        A^C|Dropped||A";
    types_lines(&rt, 1, cases);
}

// A file with so many bytes.
fn filled(rt: &(impl Abort + AllocGlobal), size: usize) -> Data {
    let mut typed = Data::new(rt.alloc()).expect(rt, "memory");
    for _ in 0..size {
        typed.take(b'A');
    }
    typed
}

// Presses keys: the last turn, how many bytes there are then, and what is shown.
fn presses(rt: &(impl Abort + AllocGlobal), typed: &mut Data, line: &str) {
    let (keys, wanted) = cut(line);
    let (turn_and_size, shown) = cut(wanted);
    let keys = bytes_of(rt.alloc(), keys).expect(rt, "memory");
    let mut sink = MemSink::new(rt.alloc(), 10).expect(rt, "memory");
    let turn = press(typed, &keys, &mut sink);
    let size = typed.bytes().len();
    let said = format!(in rt.alloc(); "{turn:?} {size}").expect(rt, "memory");
    assert_eq!(rt; said.as_str(), turn_and_size, "{line}");
    are_bytes(rt, sink.bytes(), shown);
}

#[test]
fn what_has_no_room_rings(rt: HostRuntime) {
    let mut typed = filled(&rt, FILE_LIMIT - 1);
    let cases = "^M|More 65535|^G
        B|More 65536|B
        C|More 65536|^G
        ^I|More 65536|^G
        ^J|More 65536|^G
        ^?|More 65535|^H ^H
        ^?|More 65534|^H ^H
        ^M|More 65536|^M^J
        D|More 65536|^G";
    for line in cases.lines() {
        presses(&rt, &mut typed, line.trim_start());
    }
    assert!(rt; typed.bytes().ends_with(b"A\r\n"));
}
