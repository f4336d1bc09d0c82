// One too many of each kind, and too many bytes.

use crate::given::{FRONT, each_after, fault};
use ex_image::Kind::Range;
use std::alloc::{AllocError, Global};
use std::test::Fail;

// A head, and 64 directories.
fn directories(alloc: Global) -> Result<String, AllocError> {
    let mut image = String::from_str(alloc, "EXEC20 2\n")?;
    for number in 100..164 {
        write!(image, "D D{number} 1\n")?;
    }
    Ok(image)
}

#[test]
fn there_are_64_directories(rt: HostRuntime) -> Result<(), Fail> {
    let image = directories(rt.alloc())?;
    each_after(
        &rt,
        image.as_bytes(),
        "\
D D164 1| -> 0 Limit
D D163 1| -> 0 Order
D D164 64| -> 0 Range
C D163|E| -> an image",
    );
    Ok(())
}

// The front of a new store, as a text.
fn front(alloc: Global) -> Result<String, AllocError> {
    String::from_str(alloc, "EXEC20 2\nD OPERATOR 1\nC OPERATOR\n")
}

// A new store with 64 logical names.
fn logical_names(alloc: Global) -> Result<String, AllocError> {
    let mut image = front(alloc)?;
    for number in 100..164 {
        write!(image, "L L{number} OPERATOR\n")?;
    }
    Ok(image)
}

#[test]
fn there_are_64_logical_names(rt: HostRuntime) -> Result<(), Fail> {
    let image = logical_names(rt.alloc())?;
    each_after(
        &rt,
        image.as_bytes(),
        "\
L L164 OPERATOR| -> 0 Limit
L L163 OPERATOR| -> 0 Order
L L163 NONE| -> 0 Name
E| -> an image",
    );
    Ok(())
}

// A new store with 64 requests.
fn requests(alloc: Global) -> Result<String, AllocError> {
    let mut image = front(alloc)?;
    for _ in 0..64 {
        image.push_str("Q OPERATOR A..1 1 NORMAL - A \n")?;
    }
    Ok(image)
}

#[test]
fn there_are_64_requests(rt: HostRuntime) -> Result<(), Fail> {
    let image = requests(rt.alloc())?;
    each_after(
        &rt,
        image.as_bytes(),
        "\
Q OPERATOR A..1 1 NORMAL - A | -> 0 Limit
Q NONE A..1 1 NORMAL - A | -> 0 Name
Q OPERATOR A..1 0 NORMAL - A | -> 0 Range
E| -> an image",
    );
    Ok(())
}

// A new store with 4,096 files.
fn files(alloc: Global) -> Result<String, AllocError> {
    let mut image = front(alloc)?;
    for number in 1_001..5_097 {
        write!(image, "F OPERATOR A..{number} U 0 0 - 0\n\n")?;
    }
    Ok(image)
}

#[test]
fn there_are_4096_files(rt: HostRuntime) -> Result<(), Fail> {
    let image = files(rt.alloc())?;
    each_after(
        &rt,
        image.as_bytes(),
        "\
F OPERATOR A..5097 U 0 0 - 0|| -> 0 Limit
F OPERATOR A..5096 U 0 0 - 0|| -> 0 Order
F NONE A..5097 U 0 0 - 0|| -> 0 Name
E| -> an image",
    );
    Ok(())
}

// Puts a file of so many bytes after an image.
fn push_file(image: &mut Vec<u8>, line: &str, size: usize) -> Result<(), AllocError> {
    image.extend_from_slice(line.as_bytes())?;
    for _ in 0..size {
        image.push(b'x')?;
    }
    image.extend_from_slice(b"\n")
}

// The image of a store with one file of so many bytes.
fn image_of(alloc: Global, line: &str, size: usize) -> Result<Vec<u8>, AllocError> {
    let mut image = Vec::from_slice(alloc, FRONT)?;
    push_file(&mut image, line, size)?;
    image.extend_from_slice(b"E\n")?;
    Ok(image)
}

#[test]
fn a_file_has_65536_bytes(rt: HostRuntime) -> Result<(), Fail> {
    let image = image_of(rt.alloc(), "F OPERATOR A..1 U 0 0 - 65536\n", 65_536)?;
    assert_eq!(rt; fault(&rt, &image), None);
    let image = image_of(rt.alloc(), "F OPERATOR A..1 U 0 0 - 65537\n", 65_537)?;
    assert_eq!(rt; fault(&rt, &image), Some((33, Range)));
    Ok(())
}

// A store that is full: 128 files of 65,536 bytes.
fn full(alloc: Global) -> Result<Vec<u8>, AllocError> {
    let mut image = Vec::from_slice(alloc, FRONT)?;
    for number in 100..228 {
        let line = format!(in alloc; "F OPERATOR A..{number} U 0 0 - 65536\n")?;
        push_file(&mut image, line.as_str(), 65_536)?;
    }
    Ok(image)
}

#[test]
fn the_files_have_8388608_bytes(rt: HostRuntime) -> Result<(), Fail> {
    let image = full(rt.alloc())?;
    each_after(
        &rt,
        &image,
        "\
F OPERATOR A..228 U 0 0 - 1|x| -> 0 Limit
F OPERATOR A..227 U 0 0 - 1|x| -> 0 Order
F OPERATOR A..228 U 0 0 - 0||E| -> an image",
    );
    Ok(())
}
