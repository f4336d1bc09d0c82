// Cases are lines of a text, whose parts are between bars.
use std::alloc::{AllocError, Global};
use std::process::Abort;

// What is before the first bar, and what is after it.
pub(crate) fn cut(text: &str) -> (&str, &str) {
    text.split_once('|').unwrap_or((text, ""))
}

// What is before the first space, and what is after it.
pub(crate) fn word(text: &str) -> (&str, &str) {
    text.split_once(' ').unwrap_or((text, ""))
}

// A number in decimal; what is none counts as 0.
pub(crate) fn number(text: &str) -> u64 {
    text.parse().unwrap_or(0)
}

// Bytes as a case has them: ^M is control-M, ^? is DEL, and ^^ the sign itself.
pub(crate) fn bytes_of(alloc: Global, text: &str) -> Result<Vec<u8>, AllocError> {
    let mut bytes = Vec::new(alloc);
    let mut is_control = false;
    for byte in text.as_bytes() {
        let is_sign = *byte == b'^';
        if is_control && !is_sign {
            bytes.push(*byte ^ 64)?;
        } else if is_control || !is_sign {
            bytes.push(*byte)?;
        }
        is_control = is_sign && !is_control;
    }
    Ok(bytes)
}

// The bytes are those that a case has.
pub(crate) fn are_bytes(rt: &(impl Abort + AllocGlobal), bytes: &[u8], wanted: &str) {
    let wanted = bytes_of(rt.alloc(), wanted).expect(rt, "memory");
    assert_eq!(rt; bytes, wanted.as_slice());
}
