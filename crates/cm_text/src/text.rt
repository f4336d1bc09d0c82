// How long lines and texts may be, and how a line is continued.
ghost use Rattle.std.specs.Prelude.{◌≡◌};
ghost use Rattle.cm_text.specs.Text.{ends_in_hyphen};

/// The most bytes that a line has.
pub const LINE_LIMIT: usize = 255;

/// The most bytes that a text has: those of a line, and the CR that finished it.
pub const TEXT_LIMIT: usize = LINE_LIMIT + 1;

/// The byte that is in a line where a hyphen continued it.
pub const JOIN: u8 = b'\n';

/// Whether the last byte of a line is a hyphen, so that a carriage return continues the line.
pub fn ends_in_hyphen(line: &[u8]) -> bool
    ensures { result ≡ ends_in_hyphen line.now }
{
    match line.last() {
        Some(&b'-') => true,
        _ => false,
    }
}
