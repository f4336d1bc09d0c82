// A store in which every limit is reached at once.

use crate::given::written;
use cm_io::Put;
use ex_image::decode;
use std::alloc::{AllocError, Global};
use std::process::Abort;
use std::test::Fail;

// What makes names of 39 bytes of four and of five, and a type of 39 bytes.
const REST_OF_FOUR: &str = "-A-NAME-OF-THIRTY-NINE-BYTES-IN-ITS";

const REST_OF_FIVE: &str = "-A-NAME-OF-THIRTY-NINE-BYTES-IN-IT";

const TYPE: &str = "A-TYPE-OF-THIRTY-NINE-BYTES-IN-ITS-LENG";

// 64 directories that keep 63 generations, of which the last is connected.
fn directories(alloc: Global) -> Result<String, AllocError> {
    let rest = REST_OF_FOUR;
    let mut image = String::from_str(alloc, "EXEC20 2\n")?;
    for number in 100..164 {
        write!(image, "D D{number}{rest} 63\n")?;
    }
    write!(image, "C D163{rest}\n")?;
    Ok(image)
}

// 64 logical names for the last directory.
fn push_logical_names(image: &mut String) -> Result<(), AllocError> {
    let rest = REST_OF_FOUR;
    for number in 100..164 {
        write!(image, "L L{number}{rest} D163{rest}\n")?;
    }
    Ok(())
}

// Puts a file of this number with these bytes after an image.
fn push_file(
    alloc: Global,
    image: &mut Vec<u8>,
    number: u32,
    held: &[u8],
) -> Result<(), AllocError> {
    let directory = REST_OF_FOUR;
    let name = REST_OF_FIVE;
    let kind = TYPE;
    let size = held.len();
    let line = format!(in alloc;
        "F D163{directory} N{number}{name}.{kind}.131071 D 63 4102444799 4102444799 {size}\n"
    )?;
    image.extend_from_slice(line.as_bytes())?;
    image.extend_from_slice(held)?;
    image.extend_from_slice(b"\n")
}

// 4,096 files, of which 128 have 65,536 bytes and the others none.
fn push_files(alloc: Global, image: &mut Vec<u8>) -> Result<(), AllocError> {
    let most = vec![in alloc; b'\n'; 65_536]?;
    for number in 1_000..5_096 {
        let held: &[u8] = if number < 1_128 { &most } else { &[] };
        push_file(alloc, image, number, held)?;
    }
    Ok(())
}

// 64 entries of the print queue.
fn push_requests(alloc: Global, image: &mut Vec<u8>) -> Result<(), AllocError> {
    let directory = REST_OF_FOUR;
    let name = REST_OF_FIVE;
    let kind = TYPE;
    for number in 1_000..1_064 {
        let line = format!(in alloc;
            "Q D163{directory} N{number}{name}.{kind}.131071 63 NORMAL 47481 N{number}{name} \
a note of thirty-nine bytes, and no mor\n"
        )?;
        image.extend_from_slice(line.as_bytes())?;
    }
    Ok(())
}

fn full(alloc: Global) -> Result<Vec<u8>, AllocError> {
    let mut front = directories(alloc)?;
    push_logical_names(&mut front)?;
    let mut image = Vec::from_slice(alloc, front.as_bytes())?;
    push_files(alloc, &mut image)?;
    push_requests(alloc, &mut image)?;
    image.extend_from_slice(b"E\n")?;
    Ok(image)
}

#[test]
fn a_store_that_is_full_comes_back(rt: HostRuntime) -> Result<(), Fail> {
    let image = full(rt.alloc())?;
    let store = decode(rt.alloc(), &image)?;
    let (put, host) = written(rt.alloc(), &store, "IN", 16_777_215, &[])?;
    assert!(rt; put == Put::Done && host.output() == Some(image.as_slice()));
    Ok(())
}
