// Images that are cut.

use crate::cases::bytes_of;
use crate::given::fault;
use ex_image::Kind::Cut;
use std::process::Abort;
use std::test::Fail;

// The records of images in version 2, a line each.
const ONE_OF_EACH: &str = "\
EXEC20 2|
D OPERATOR 0|
D SMITH 2|
C SMITH|
L HOME SMITH|
F OPERATOR A.TXT.7 U 3 5 4102444799 9|one||E|F||
F SMITH B..1 D 0 0 - 0||
Q SMITH B..1 2 WIDE - JOB a note|
E|";

const TWO_DIRECTORIES: &str = "\
EXEC20 2|
D OPERATOR 1|
D SMITH 2|
D SMITH.SRC 0|
C OPERATOR|
F SMITH LOGIN.CMD.1 U 2 86400 - 9|INF VER^||
F SMITH REPORT.TXT.3 U 2 946684800 0 7|HELLO^||
E|";

// And in version 1.
const FIRST_OF_EACH: &str = "\
EXEC20 1|
D OPERATOR 0|
D SMITH 2|
C SMITH|
L HOME SMITH|
F OPERATOR A.TXT.7 U 5 9|one||E|F||
F SMITH B..1 D 0 0||
Q SMITH B..1 2 WIDE - JOB a note|
E|";

const FIRST_DIRECTORIES: &str = "\
EXEC20 1|
D OPERATOR 1|
D SMITH 2|
D SMITH.SRC 0|
C OPERATOR|
F SMITH LOGIN.CMD.1 U 86400 9|INF VER^||
F SMITH REPORT.TXT.3 U 946684800 7|HELLO^||
E|";

// Puts a record after those before it, byte by byte: as long as a byte of it is wanting, it is the one that is cut.
fn push_record(
    rt: &(impl Abort + AllocGlobal),
    image: &mut Vec<u8>,
    record: &str,
) -> Result<(), Fail> {
    let start = image.len();
    let record = bytes_of(rt.alloc(), record)?;
    for byte in record.iter() {
        assert_eq!(rt; fault(rt, image), Some((start, Cut)));
        image.push(*byte)?;
    }
    Ok(())
}

// Each beginning of an image but the whole is one that is cut.
fn is_cut_everywhere(rt: &(impl Abort + AllocGlobal), records: &str) -> Result<(), Fail> {
    let mut image = Vec::new(rt.alloc());
    for record in records.lines() {
        push_record(rt, &mut image, record)?;
    }
    assert_eq!(rt; fault(rt, &image), None);
    Ok(())
}

#[test]
fn the_record_that_ends_early_is_cut(rt: HostRuntime) -> Result<(), Fail> {
    is_cut_everywhere(&rt, ONE_OF_EACH)?;
    is_cut_everywhere(&rt, TWO_DIRECTORIES)?;
    is_cut_everywhere(&rt, FIRST_OF_EACH)?;
    is_cut_everywhere(&rt, FIRST_DIRECTORIES)
}
