// Cases as texts: a line each, with what is done and, after an arrow, what is wanted.

use std::alloc::{AllocError, Global};
use std::process::Abort;

/// What is done, and what is wanted.
pub(crate) fn halves<'a>(rt: &impl Abort, case: &'a str) -> (&'a str, &'a str) {
    case.split_once(" -> ").expect(rt, "an arrow")
}

/// The first word, and what is after it.
pub(crate) fn first_word(text: &str) -> (&str, &str) {
    match text.split_once(' ') {
        Some(parts) => parts,
        None => (text, ""),
    }
}

/// What was told is what is wanted of this case.
pub(crate) fn is_told(rt: &impl Abort, told: &String, wanted: &str, case: &str) {
    assert_eq!(rt; told.as_str(), wanted, "{case}");
}

/// The bytes of a text, in which `|` stands for a line feed and `^` for a carriage return.
pub(crate) fn bytes_of(alloc: Global, text: &str) -> Result<Vec<u8>, AllocError> {
    let mut bytes = Vec::new(alloc);
    for byte in text.as_bytes() {
        let meant = match *byte {
            b'|' => b'\n',
            b'^' => b'\r',
            other => other,
        };
        bytes.push(meant)?;
    }
    Ok(bytes)
}
