// What is in the file where the host fails.

use crate::cases::{halves, is_told};
use crate::given::{IMAGE, NEW_IMAGE, store, written};
use cm_io::{NoMemory, Put};
use ex_store::Store;
use std::alloc::{AllocError, Global};
use std::process::Abort;

// How many bytes of an image are in a file, or why none are.
fn put_part(told: &mut String, file: Option<&[u8]>) -> Result<(), AllocError> {
    let Some(bytes) = file else {
        return told.push_str(" none");
    };
    if IMAGE.starts_with(bytes) {
        let length = bytes.len();
        return write!(told, " {length}");
    }
    told.push_str(if bytes == b"old".as_slice() {
        " old"
    } else {
        " other"
    })
}

// What comes of writing a store where a call fails, and what then is in OUT and in IN.
fn told(alloc: Global, store: &Store, file: &str, call: u32) -> Result<String, NoMemory> {
    let (put, host) = written(alloc, store, file, 104, &[call])?;
    let mut told = format!(in alloc; "{put:?}")?;
    put_part(&mut told, host.file("OUT"))?;
    put_part(&mut told, host.file("IN"))?;
    Ok(told)
}

fn leaves(rt: &(impl Abort + AllocGlobal), store: &Store, case: &str) {
    let (done, wanted) = halves(rt, case);
    let (file, call) = done.split_once(' ').expect(rt, "a file and a call");
    let call = call.parse().expect(rt, "the number of a call");
    let told = told(rt.alloc(), store, file, call).expect(rt, "memory");
    is_told(rt, &told, wanted, case);
}

#[test]
fn where_a_call_fails_what_was_written_stands(rt: HostRuntime) {
    let store = store(&rt);
    let cases = "\
IN 0 -> Failed none old
OUT 0 -> Failed old none
IN 1 -> Failed 0 old
IN 2 -> Failed 9 old
IN 3 -> Failed 22 old
IN 4 -> Failed 32 old
IN 5 -> Failed 40 old
IN 6 -> Failed 66 old
IN 7 -> Failed 74 old
IN 8 -> Failed 75 old
IN 9 -> Failed 101 old
IN 10 -> Failed 101 old
IN 11 -> Failed 102 old
IN 12 -> Failed 104 old
IN 13 -> Done 104 old";
    for case in cases.lines() {
        leaves(&rt, &store, case);
    }
}

// Whether no more than a part of the image of a new store stands, where there is so much room.
fn is_part(alloc: Global, store: &Store, room: u32) -> Result<bool, NoMemory> {
    let (put, host) = written(alloc, store, "IN", room, &[])?;
    let part = host.output().unwrap_or(b"none");
    Ok(
        put == Put::Failed
            && part.len() <= room as usize
            && NEW_IMAGE.starts_with(part)
            && host.file("IN") == Some(b"old".as_slice()),
    )
}

#[test]
fn a_part_stands_where_there_is_no_room(rt: HostRuntime) {
    let store = Store::new(rt.alloc()).expect(&rt, "memory");
    for room in 0..35 {
        let part = is_part(rt.alloc(), &store, room).expect(&rt, "memory");
        assert!(rt; part, "{room}");
    }
}
