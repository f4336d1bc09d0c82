// Images that are written whole, and that are read and written again.

use crate::cases::bytes_of;
use crate::given::{IMAGE, NEW_IMAGE, store, written};
use cm_io::Put;
use ex_image::decode;
use ex_store::Store;
use std::alloc::Global;
use std::process::Abort;
use std::test::Fail;

// A new store with a logical name and a request.
const SMALL_IMAGE: &[u8] = b"EXEC20 2\nD OPERATOR 1\nC OPERATOR\nL A OPERATOR\n\
    Q OPERATOR A..1 1 NORMAL - A \nE\n";

// Each number at both its ends, names with all that they may have, files that hold records, and requests that are
// equal.
const LARGE_IMAGE: &[u8] = b"EXEC20 2\n\
    D A 0\n\
    D A-B_C$1.2.Z9 63\n\
    D A-NAME-OF-THIRTY-NINE-BYTES-IN-LENGTH-1 1\n\
    C A\n\
    L HOME A-B_C$1.2.Z9\n\
    L SYS-1$_ A\n\
    F A 0.1.1 U 0 0 - 0\n\n\
    F A A..1 D 63 4102444799 4102444799 1\n\n\n\
    F A A.B.131070 U 1 1 0 4\nE\nE\n\n\
    F A A.B.131071 U 2 1 - 3\n? \xff\n\
    F A AB..1 U 3 1 2 2\n\r\n\n\
    F A-B_C$1.2.Z9 A..1 U 10 1 1234567890 0\n\n\
    Q A NONE.X.131071 63 NARROW - JOB-1 \n\
    Q A NONE.X.131071 63 NARROW - JOB-1 \n\
    Q A-B_C$1.2.Z9 A..1 1 NORMAL 0 J  \n\
    Q A A..1 2 WIDE 47481 $ a\tnote of 39 bytes, that has also a TAB\n\
    E\n";

// Two directories, two logical names, a file with the highest numbers and one with the lowest, and a request for
// each form: with no day and no note, for the first day and for the last.
const KINDS: &str =
    "EXEC20 2|D OPERATOR 0|D SMITH.LETTERS 63|C SMITH.LETTERS|L HOME SMITH.LETTERS|L SYS OPERATOR|\
F OPERATOR A.TXT.131071 D 63 4102444799 4102444799 6|E|F X||F SMITH.LETTERS B-1..1 U 0 0 - 0||\
Q OPERATOR A.TXT.12 63 NARROW - JOB-1 |Q OPERATOR A.TXT.12 1 NORMAL 0 JOB-1 by  noon|\
Q SMITH.LETTERS B-1..12 10 WIDE 47481 JOB-1 x|E|";

// Whether an image is decoded, and what is then encoded is the image.
fn comes_back(rt: &(impl Abort + AllocGlobal), image: &[u8]) -> Result<bool, Fail> {
    let store = decode(rt.alloc(), image)?;
    let (put, host) = written(rt.alloc(), &store, "IN", 2_000, &[])?;
    Ok(put == Put::Done && host.output() == Some(image))
}

// [image-written]
#[test]
fn an_image_comes_back(rt: HostRuntime) -> Result<(), Fail> {
    assert!(rt; comes_back(&rt, NEW_IMAGE)? && comes_back(&rt, SMALL_IMAGE)?);
    assert!(rt; comes_back(&rt, IMAGE)? && comes_back(&rt, LARGE_IMAGE)?);
    Ok(())
}

#[test]
fn every_kind_of_record_comes_back(rt: HostRuntime) -> Result<(), Fail> {
    let image = bytes_of(rt.alloc(), KINDS)?;
    assert!(rt; comes_back(&rt, &image)?);
    Ok(())
}

// Whether a store is written where there is room for just its image, which then is in OUT, and IN stays.
fn is_written(alloc: Global, store: &Store, image: &[u8]) -> Result<bool, Fail> {
    let room = image.len().min(200) as u32;
    let (put, host) = written(alloc, store, "IN", room, &[])?;
    let stays = host.file("IN") == Some(b"old".as_slice());
    Ok(put == Put::Done && host.output() == Some(image) && stays)
}

#[test]
fn a_new_store_has_35_bytes(rt: HostRuntime) -> Result<(), Fail> {
    let store = Store::new(rt.alloc())?;
    assert!(rt; NEW_IMAGE.len() == 35 && is_written(rt.alloc(), &store, NEW_IMAGE)?);
    Ok(())
}

#[test]
fn the_files_stand_after_their_lines(rt: HostRuntime) -> Result<(), Fail> {
    assert!(rt; IMAGE.len() == 104 && is_written(rt.alloc(), &store(&rt), IMAGE)?);
    Ok(())
}

#[test]
fn an_image_takes_the_place_of_a_file(rt: HostRuntime) -> Result<(), Fail> {
    let (put, host) = written(rt.alloc(), &store(&rt), "OUT", 104, &[])?;
    assert!(rt; put == Put::Done && host.file("OUT") == Some(IMAGE));
    Ok(())
}
