// Images, stores that are written, and where bytes go wrong.

use crate::cases::{bytes_of, halves, is_told};
use cm_io::{MemHost, NoMemory, Put};
use ex_image::{ImageFault, Kind, decode, encode};
use ex_store::Store;
use std::alloc::{AllocError, Global};
use std::process::Abort;

/// The image of a new store without its end, 33 bytes.
pub(crate) const FRONT: &[u8] = b"EXEC20 2\nD OPERATOR 1\nC OPERATOR\n";

/// The image of a new store, 35 bytes.
pub(crate) const NEW_IMAGE: &[u8] = b"EXEC20 2\nD OPERATOR 1\nC OPERATOR\nE\n";

/// The front of an image in version 1, 33 bytes.
pub(crate) const FIRST_FRONT: &[u8] = b"EXEC20 1\nD OPERATOR 1\nC OPERATOR\n";

/// The image of a store with two generations of <SMITH>A.TXT, 104 bytes.
pub(crate) const IMAGE: &[u8] = b"EXEC20 2\nD OPERATOR 1\nD SMITH 1\nC SMITH\n\
    F SMITH A.TXT.1 D 1 7 - 8\none\ntwo\n\nF SMITH A.TXT.2 U 1 8 5 0\n\nE\n";

/// That store, with the lower generation marked, and SMITH connected.
pub(crate) fn store(rt: &(impl Abort + AllocGlobal)) -> Store {
    decode(rt.alloc(), IMAGE).expect(rt, "an image")
}

/// Writes a store to OUT, on a host that has this file already, so much room, and calls that fail.
pub(crate) fn written(
    alloc: Global,
    store: &Store,
    file: &str,
    room: u32,
    fails: &[u32],
) -> Result<(Put, MemHost), NoMemory> {
    let mut host = MemHost::new(alloc, file, Some(b"old"), room, fails)?;
    let put = encode(store, &mut host, "OUT");
    Ok((put, host))
}

/// Where bytes first go wrong, and how; None where they are an image.
pub(crate) fn fault(rt: &(impl Abort + AllocGlobal), image: &[u8]) -> Option<(usize, Kind)> {
    match decode(rt.alloc(), image) {
        Ok(_) => None,
        Err(ImageFault::Bad { at, kind }) => Some((at as usize, kind)),
        Err(ImageFault::NoMemory) => {
            assert!(rt; false, "there is no memory");
            None
        }
    }
}

// The bytes, and lines after them.
fn joined(alloc: Global, front: &[u8], lines: &str) -> Result<Vec<u8>, AllocError> {
    let lines = bytes_of(alloc, lines)?;
    let mut image = Vec::from_slice(alloc, front)?;
    image.extend_from_slice(&lines)?;
    Ok(image)
}

// Where lines after a front go wrong, counted from the first of them, and how.
fn fault_after(
    rt: &(impl Abort + AllocGlobal),
    front: &[u8],
    lines: &str,
) -> Result<String, AllocError> {
    let image = joined(rt.alloc(), front, lines)?;
    match fault(rt, &image) {
        Some((at, kind)) => {
            assert!(rt; at >= front.len(), "the front is good");
            format!(in rt.alloc(); "{} {kind:?}", at - front.len())
        }
        None => String::from_str(rt.alloc(), "an image"),
    }
}

fn goes_wrong(rt: &(impl Abort + AllocGlobal), front: &[u8], case: &str) {
    let (lines, wanted) = halves(rt, case);
    let told = fault_after(rt, front, lines).expect(rt, "memory");
    is_told(rt, &told, wanted, case);
}

/// Lines after a front, `|` and `^` standing for a line feed and a carriage return, go wrong as each case says.
pub(crate) fn each_after(rt: &(impl Abort + AllocGlobal), front: &[u8], cases: &str) {
    for case in cases.lines() {
        goes_wrong(rt, front, case);
    }
}

fn is_fault(rt: &(impl Abort + AllocGlobal), front: &[u8], lines: &str, wanted: &str) {
    let told = fault_after(rt, front, lines).expect(rt, "memory");
    is_told(rt, &told, wanted, lines);
}

/// The same where all go wrong in one way.
pub(crate) fn all_after(rt: &(impl Abort + AllocGlobal), front: &[u8], wanted: &str, cases: &str) {
    for lines in cases.lines() {
        is_fault(rt, front, lines, wanted);
    }
}
