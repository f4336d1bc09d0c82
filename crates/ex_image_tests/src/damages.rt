// Images in which one byte of a file's record is another.

use crate::given::{FIRST_FRONT, FRONT, fault};
use ex_image::Kind;
use std::alloc::{AllocError, Global};
use std::process::Abort;
use std::test::Fail;

// The image with a question mark at a place.
fn damaged(alloc: Global, image: &[u8], at: usize) -> Result<Vec<u8>, AllocError> {
    let mut damaged = Vec::from_slice(alloc, image)?;
    if at < damaged.len() {
        damaged[at] = b'?';
    }
    Ok(damaged)
}

// A question mark at each of these places of an image comes to this.
fn goes_wrong(
    rt: &(impl Abort + AllocGlobal),
    image: &[u8],
    from: usize,
    to: usize,
    wanted: Option<(usize, Kind)>,
) -> Result<(), Fail> {
    for at in from..to {
        let damaged = damaged(rt.alloc(), image, at)?;
        assert_eq!(rt; fault(rt, &damaged), wanted, "{at}");
    }
    Ok(())
}

// A front, the line of a file of four bytes, those bytes, and the end.
fn image_of(alloc: Global, front: &[u8], line: &str) -> Result<Vec<u8>, AllocError> {
    let mut image = Vec::from_slice(alloc, front)?;
    image.extend_from_slice(line.as_bytes())?;
    image.extend_from_slice(b"\none\n\nE\n")?;
    Ok(image)
}

// Each byte of the line of a file counts, and the line feeds after it and after the bytes of the file; these may be
// any.
fn each_byte_counts(rt: &(impl Abort + AllocGlobal), front: &[u8], line: &str) -> Result<(), Fail> {
    let image = image_of(rt.alloc(), front, line)?;
    let start = front.len();
    let held = start.saturating_add(line.len()).saturating_add(1);
    let after = held.saturating_add(4);
    assert_eq!(rt; fault(rt, &image), None);
    goes_wrong(rt, &image, start, held, Some((start, Kind::Form)))?;
    goes_wrong(rt, &image, held, after, None)?;
    goes_wrong(
        rt,
        &image,
        after,
        after.saturating_add(1),
        Some((start, Kind::Form)),
    )
}

#[test]
fn each_byte_of_the_line_of_a_file_counts(rt: HostRuntime) -> Result<(), Fail> {
    each_byte_counts(&rt, FRONT, "F OPERATOR A.TXT.7 U 0 5 - 4")?;
    each_byte_counts(
        &rt,
        FRONT,
        "F OPERATOR A-1.TXT.131071 D 63 4102444799 946684800 4",
    )?;
    each_byte_counts(&rt, FIRST_FRONT, "F OPERATOR A.TXT.7 U 5 4")?;
    each_byte_counts(&rt, FIRST_FRONT, "F OPERATOR A-1.TXT.131071 D 4102444799 4")
}
