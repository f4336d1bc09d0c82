// The EXEC over files that a case names, and what is shown as a case writes it.
ghost use Rattle.std.specs.Prelude.{◌≡◌};
ghost use Rattle.ex_store.specs.State.{has_directory};

use cm_fields::Gen;
use cm_files::Flags;
use cm_run::Own;
use cm_text::{NAME_LIMIT, Name};
use ex_image::decode;
use ex_store::{Place, Store};
use ex_take::Exec;
use std::alloc::{AllocError, Global};
use std::test::Fail;

/// What is before a bar, and after it.
pub(crate) fn cut(text: &str) -> (&str, &str) {
    text.split_once('|').unwrap_or((text, ""))
}

// The bytes of a text, with this end of a line for each tilde.
fn push_text(text: &str, end: &[u8], bytes: &mut Vec<u8>) -> Result<(), AllocError> {
    for byte in text.bytes() {
        if byte == b'~' {
            bytes.extend_from_slice(end)?;
        } else {
            bytes.push(byte)?;
        }
    }
    Ok(())
}

/// What is shown, as a case writes it: each tilde is the end of a line.
pub(crate) fn shown_as(alloc: Global, text: &str) -> Result<Vec<u8>, AllocError> {
    let mut bytes = Vec::new(alloc);
    push_text(text, b"\r\n", &mut bytes)?;
    Ok(bytes)
}

// Adds the record of a file of OPERATOR: its name, and its bytes after a bar, each tilde a line feed.
fn push_file(alloc: Global, file: &str, image: &mut Vec<u8>) -> Result<(), AllocError> {
    let (name, text) = cut(file);
    let mut bytes = Vec::new(alloc);
    push_text(text, b"\n", &mut bytes)?;
    let size = bytes.len();
    let record = format!(in alloc; "F OPERATOR {name}.1 U 1 0 - {size}\n")?;
    image.extend_from_slice(record.as_bytes())?;
    image.extend_from_slice(&bytes)?;
    image.push(b'\n')?;
    Ok(())
}

// The image with the files of a case: its lines that begin with `file`.
fn image_of(alloc: Global, case: &str) -> Result<Vec<u8>, AllocError> {
    let mut image = Vec::new(alloc);
    image.extend_from_slice(b"EXEC20 2\nD OPERATOR 1\nC OPERATOR\n")?;
    for line in case.lines() {
        if let Some(file) = line.strip_prefix("file ") {
            push_file(alloc, file, &mut image)?;
        }
    }
    image.extend_from_slice(b"E\n")?;
    Ok(image)
}

/// The EXEC over the files of a case.
pub(crate) fn exec_of(alloc: Global, case: &str) -> Result<Exec, Fail> {
    let image = image_of(alloc, case)?;
    let store = decode(alloc, &image).ok().ok_or("the image is bad")?;
    Ok(Exec::new(alloc, Own::new(alloc)?, store))
}

// A name, or none at all where it is too long for one.
fn name(text: &str) -> Name {
    if text.len() <= NAME_LIMIT {
        Name::new(text)
    } else {
        Name::new("")
    }
}

/// The file NAME.TYPE of OPERATOR.
pub(crate) fn place(file: &str) -> Place {
    let (first, second) = file.split_once('.').unwrap_or((file, ""));
    Place {
        directory: Name::new("OPERATOR"),
        name: Some(name(first)),
        kind: Some(name(second)),
        generation: Gen::Missing,
        flags: Flags::default(),
    }
}

/// Whether there is a directory of this name.
pub(crate) fn has(store: &Store, name: &Name) -> bool
    ensures { result ≡ has_directory name.now store.now.state.directories }
{
    store.parts().has_directory(name.as_str())
}
