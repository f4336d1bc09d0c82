// Bytes as a case writes them: `{CR}` and the like are bytes by their names, `{5*A}` is a text five times over,
// `{5*LF}` what a name stands for, and `{5*~}` a rubout, and all else is itself.
use std::alloc::AllocError;

const NAMES: [(&str, &str); 18] = [
    ("", ""),
    ("BEL", "\x07"),
    ("CR", "\r"),
    ("DEL", "\x7f"),
    ("EOL", "\r\n"),
    ("ESC", "\x1b"),
    // the records of an image with one directory, up to its files
    ("HEAD", "EXEC20 2\nD OPERATOR 1\nC OPERATOR\n"),
    // two lines of a command file that are joined
    ("JOINED", "-\n\n"),
    ("LF", "\n"),
    ("RUB", "\x08 \x08"),
    ("SP", " "),
    ("TAB", "\t"),
    ("^C", "\x03"),
    ("^F", "\x06"),
    ("^H", "\x08"),
    ("^U", "\x15"),
    ("^W", "\x17"),
    ("^Z", "\x1a"),
];

// Adds what a text in this notation says.
pub(crate) fn push_said(text: &str, said: &mut String) -> Result<(), AllocError> {
    for part in text.split('{') {
        push_part(part, said)?;
    }
    Ok(())
}

// Adds what a part says, which begins after a brace or is before the first one.
fn push_part(part: &str, said: &mut String) -> Result<(), AllocError> {
    let Some((name, rest)) = part.split_once('}') else {
        return said.push_str(part);
    };
    match name.split_once('*') {
        Some((count, byte)) => push_times(count.parse().unwrap_or(0), byte, said)?,
        None => said.push_str(named(name))?,
    }
    said.push_str(rest)
}

fn push_times(count: u32, byte: &str, said: &mut String) -> Result<(), AllocError> {
    let piece = piece_of(byte);
    for _time in 0..count {
        said.push_str(piece)?;
    }
    Ok(())
}

// What a text stands for that is put several times.
fn piece_of(text: &str) -> &str {
    match (text, bytes_of(text)) {
        ("~", _) => "\x08 \x08",
        (_, Some(bytes)) => bytes,
        _ => text,
    }
}

// The bytes of a name, or a question mark where it is none.
fn named(name: &str) -> &'static str {
    bytes_of(name).unwrap_or("?")
}

fn bytes_of(name: &str) -> Option<&'static str> {
    for (known, bytes) in &NAMES {
        if *known == name {
            return Some(bytes);
        }
    }
    None
}
