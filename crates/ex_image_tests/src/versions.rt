// Images in version 1, which are read and written in version 2.

use crate::cases::{bytes_of, halves};
use crate::given::written;
use cm_io::Put;
use ex_image::decode;
use std::process::Abort;
use std::test::Fail;

// Whether an image is decoded, and what is then encoded is this.
fn becomes(rt: &(impl Abort + AllocGlobal), image: &str, wanted: &str) -> Result<bool, Fail> {
    let image = bytes_of(rt.alloc(), image)?;
    let wanted = bytes_of(rt.alloc(), wanted)?;
    let store = decode(rt.alloc(), &image)?;
    let (put, host) = written(rt.alloc(), &store, "IN", 2_000, &[])?;
    Ok(put == Put::Done && host.output() == Some(wanted.as_slice()))
}

// An image in version 1 becomes one in version 2, which then stays.
fn migrates(rt: &(impl Abort + AllocGlobal), case: &str) -> Result<(), Fail> {
    let (first, second) = halves(rt, case);
    assert!(rt; becomes(rt, first, second)?, "{case}");
    assert!(rt; becomes(rt, second, second)?, "{case}");
    Ok(())
}

// [image-read]
#[test]
fn each_file_keeps_what_its_directory_keeps(rt: HostRuntime) -> Result<(), Fail> {
    let cases = "\
EXEC20 1|D OPERATOR 1|C OPERATOR|E| -> EXEC20 2|D OPERATOR 1|C OPERATOR|E|
EXEC20 1|D OPERATOR 1|D SMITH 2|D SMITH.SRC 0|C OPERATOR|F SMITH LOGIN.CMD.1 U 86400 9|INF VER^||\
F SMITH REPORT.TXT.3 U 946684800 7|HELLO^||E| -> \
EXEC20 2|D OPERATOR 1|D SMITH 2|D SMITH.SRC 0|C OPERATOR|F SMITH LOGIN.CMD.1 U 2 86400 - 9|INF VER^||\
F SMITH REPORT.TXT.3 U 2 946684800 - 7|HELLO^||E|
EXEC20 1|D A 0|D B 63|C B|L X B|F A A.T.1 D 5 1|x|F A A.T.131071 U 4102444799 0||F B A.T.1 U 0 0||\
Q A A.T.1 1 NORMAL - A |E| -> \
EXEC20 2|D A 0|D B 63|C B|L X B|F A A.T.1 D 0 5 - 1|x|F A A.T.131071 U 0 4102444799 - 0||F B A.T.1 U 63 0 - 0||\
Q A A.T.1 1 NORMAL - A |E|";
    for case in cases.lines() {
        migrates(&rt, case)?;
    }
    Ok(())
}

#[test]
fn no_file_is_marked_that_was_not(rt: HostRuntime) -> Result<(), Fail> {
    migrates(
        &rt,
        "EXEC20 1|D A 1|C A|F A A.T.1 U 5 0||F A A.T.2 U 5 0||F A A.T.3 D 5 0||E| -> \
EXEC20 2|D A 1|C A|F A A.T.1 U 1 5 - 0||F A A.T.2 U 1 5 - 0||F A A.T.3 D 1 5 - 0||E|",
    )
}
