// Writing to the system, whatever it takes at a time.
ghost use Rattle.std.specs.Prelude.{◌≤◌, length, IfSome};

use std::io::{ErrorKind, Write};

// How often an interrupted call is tried again.
pub(crate) const TRIES: u32 = 1000;

// Writes all the bytes, and tells whether all were taken.
pub(crate) fn write_whole<W: Write>(output: &mut W, bytes: &[u8]) -> bool {
    if bytes.is_empty() {
        return true;
    }
    let mut rest = bytes;
    for _ in 0..u64::MAX {
        match write_prefix(output, rest) {
            Some(taken) if taken == rest.len() => return true,
            Some(taken) if taken > 0 => rest = &rest[taken..],
            _ => return false,
        }
    }
    false
}

// Writes a prefix of the bytes, and gives its length, or nothing where the system failed.
fn write_prefix<W: Write>(output: &mut W, bytes: &[u8]) -> Option<usize>
    ensures prefix { IfSome result (λ taken. taken ≤ length bytes.now) }
{
    for _ in 0..TRIES {
        match output.write(bytes) {
            Ok(taken) => return Some(taken),
            Err(error) if error.kind() == ErrorKind::Interrupted => {}
            Err(_) => return None,
        }
    }
    None
}
