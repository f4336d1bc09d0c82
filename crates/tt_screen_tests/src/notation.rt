// Bytes as a case writes them: `{CR}` and the like are bytes by their names, `{5*A}` is a byte five times over, also
// one with a name, and all else is itself.
use std::alloc::AllocError;

const NAMES: [(&str, &str); 15] = [
    ("BEL", "\x07"),
    ("BS", "\x08"),
    ("CR", "\r"),
    ("DEL", "\x7f"),
    ("EOL", "\r\n"),
    ("ESC", "\x1b"),
    ("LF", "\n"),
    ("RUB", "\x08 \x08"),
    ("SP", " "),
    ("TAB", "\t"),
    ("^C", "\x03"),
    ("^H", "\x08"),
    ("^R", "\x12"),
    ("^U", "\x15"),
    ("^W", "\x17"),
];

// Adds what a text in this notation says.
pub(crate) fn push_said(text: &str, said: &mut String) -> Result<(), AllocError> {
    for part in text.split('{') {
        push_part(part, said)?;
    }
    Ok(())
}

// Adds what a part says, which begins after a brace or is before the first one.
fn push_part(part: &str, said: &mut String) -> Result<(), AllocError> {
    let Some((name, rest)) = part.split_once('}') else {
        return said.push_str(part);
    };
    match name.split_once('*') {
        Some((count, byte)) => push_times(count.parse().unwrap_or(0), named(byte), said)?,
        None => said.push_str(named(name))?,
    }
    said.push_str(rest)
}

fn push_times(count: u32, bytes: &str, said: &mut String) -> Result<(), AllocError> {
    for _time in 0..count {
        said.push_str(bytes)?;
    }
    Ok(())
}

// The bytes of a name, or itself where it is none.
fn named(name: &str) -> &str {
    for (known, bytes) in &NAMES {
        if *known == name {
            return bytes;
        }
    }
    name
}
