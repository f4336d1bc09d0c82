// Bytes as a case writes them: `{CR}` and the like are bytes by their names, `{255}` is a byte by its number, `{5*A}` a
// text five times over, and all else is itself.
use std::alloc::AllocError;

const NAMES: [(&str, &str); 19] = [
    ("", ""),
    ("BEL", "\x07"),
    ("CR", "\r"),
    ("DEL", "\x7f"),
    ("EOL", "\r\n"),
    ("ESC", "\x1b"),
    // the records of an image with two directories, up to its files, where OPERATOR reads and sends
    ("HEAD", "EXEC20 2\nD OPERATOR 1\nD SMITH 1\nC OPERATOR\n"),
    ("LF", "\n"),
    ("RUB", "\x08 \x08"),
    // and where SMITH does
    ("SMITH", "EXEC20 2\nD OPERATOR 1\nD SMITH 1\nC SMITH\n"),
    ("SP", " "),
    ("TAB", "\t"),
    ("^C", "\x03"),
    ("^F", "\x06"),
    ("^H", "\x08"),
    ("^R", "\x12"),
    ("^U", "\x15"),
    ("^W", "\x17"),
    ("^Z", "\x1a"),
];

// Adds what a text in this notation says.
pub(crate) fn push_said(text: &str, said: &mut Vec<u8>) -> Result<(), AllocError> {
    for part in text.split('{') {
        push_part(part, said)?;
    }
    Ok(())
}

// Adds what a part says, which begins after a brace or is before the first one.
fn push_part(part: &str, said: &mut Vec<u8>) -> Result<(), AllocError> {
    let Some((name, rest)) = part.split_once('}') else {
        return said.extend_from_slice(part.as_bytes());
    };
    match name.split_once('*') {
        Some((count, text)) => push_times(count.parse().unwrap_or(0), text, said)?,
        None => push_once(name, said)?,
    }
    said.extend_from_slice(rest.as_bytes())
}

fn push_once(name: &str, said: &mut Vec<u8>) -> Result<(), AllocError> {
    match name.parse() {
        Ok(byte) => said.push(byte)?,
        Err(_) => said.extend_from_slice(bytes_of(name).unwrap_or(b"?"))?,
    }
    Ok(())
}

fn push_times(count: u32, text: &str, said: &mut Vec<u8>) -> Result<(), AllocError> {
    let piece = bytes_of(text).unwrap_or(text.as_bytes());
    for _time in 0..count {
        said.extend_from_slice(piece)?;
    }
    Ok(())
}

fn bytes_of(name: &str) -> Option<&'static [u8]> {
    for (known, bytes) in &NAMES {
        if *known == name {
            return Some(bytes.as_bytes());
        }
    }
    None
}
