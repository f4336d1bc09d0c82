// Reading from the system, whatever it gives at a time.
ghost use Rattle.std.specs.Prelude.{◌≤◌, length, IfSome};

use crate::std_write::TRIES;
use std::io::{ErrorKind, Read};

// Reads what has come, and gives its length, or nothing where the system failed.
pub(crate) fn read_some<R: Read>(input: &mut R, buffer: &mut [u8]) -> Option<usize>
    ensures within { IfSome result (λ count. count ≤ length buffer.old) }
{
    for _ in 0..TRIES {
        match input.read(buffer) {
            Ok(count) => return Some(count),
            Err(error) if error.kind() == ErrorKind::Interrupted => {}
            Err(_) => return None,
        }
    }
    None
}
