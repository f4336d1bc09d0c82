// The lines of a text.
ghost use Rattle.std.specs.Prelude.{◌≡◌, ◌≤◌, length, take};
ghost use Rattle.cm_text.specs.Lines.{BeginsLines, without_return};

/// Where a line ends, and where the next one begins: two places in the same bytes.
#[derive(Clone, Copy, Debug)]
pub struct LineEnd {
    /// The place after the last byte of the line.
    pub end: usize,
    /// The place after what ended the line.
    pub next: usize,
}

/// The first line of some bytes, or none where there are no bytes. A line feed ends a line, and one carriage return
/// before it is none of the line's; what is after the last line feed is a line too.
pub fn first_line(bytes: &[u8]) -> Option<LineEnd>
    ensures { BeginsLines bytes.now result }
{
    for at in 0..bytes.len() {
        if bytes[at] == b'\n' {
            return Some(LineEnd {
                end: end_of(&bytes[..at]),
                next: at + 1,
            });
        }
    }
    if bytes.is_empty() {
        None
    } else {
        Some(LineEnd {
            end: bytes.len(),
            next: bytes.len(),
        })
    }
}

// The length of a line without the carriage return that ends it.
fn end_of(line: &[u8]) -> usize
    ensures value { take result line.now ≡ without_return line.now }
    ensures within { result ≤ length line.now }
{
    match line.last() {
        Some(&b'\r') => line.len() - 1,
        _ => line.len(),
    }
}
