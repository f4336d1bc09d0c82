// The classes of bytes.
ghost use Rattle.std.specs.Prelude.{◌≡◌};
ghost use Rattle.cm_text.specs.Bytes.{is_blank, is_line_byte, is_name, is_shown, is_shown_byte, is_text, is_word};

use crate::text::JOIN;

/// Whether a byte may be typed into a line: TAB, or a printing byte other than `?`.
#[tactic(auto, unfolding(crate::specs::Bytes::is_text))]
pub fn is_text(byte: u8) -> bool
    ensures { result ≡ is_text byte }
{
    matches!(byte, b'\t' | b' '..=b'~') && byte != b'?'
}

fn is_shown_byte(byte: u8) -> bool
    ensures { result ≡ is_shown_byte byte }
{
    matches!(byte, b' '..=b'~') && byte != b'?'
}

/// Whether a text that a program gives may stand on the screen as it is: printing bytes other than `?`.
pub fn is_shown(text: &[u8]) -> bool
    ensures { result ≡ is_shown text.now }
{
    text.iter().all(|byte| is_shown_byte(*byte))
}

/// Whether a byte may be in a line: a text byte, or the join byte.
#[tactic(auto, unfolding(crate::specs::Bytes::is_line_byte))]
pub fn is_line_byte(byte: u8) -> bool
    ensures { result ≡ is_line_byte byte }
{
    is_text(byte) || byte == JOIN
}

/// Whether a byte may be in a word: a letter, a digit or `-`.
#[tactic(auto, unfolding(crate::specs::Bytes::is_word))]
pub fn is_word(byte: u8) -> bool
    ensures { result ≡ is_word byte }
{
    byte.is_ascii_alphanumeric() || byte == b'-'
}

/// Whether a byte may be in a name: a word byte, `$` or `_`.
#[tactic(auto, unfolding(crate::specs::Bytes::is_name))]
pub fn is_name(byte: u8) -> bool
    ensures { result ≡ is_name byte }
{
    is_word(byte) || byte == b'$' || byte == b'_'
}

/// Whether a byte parts fields and means nothing more: a space, TAB or the join byte.
#[tactic(auto, unfolding(crate::specs::Bytes::is_blank))]
pub fn is_blank(byte: u8) -> bool
    ensures { result ≡ is_blank byte }
{
    byte == b' ' || byte == b'\t' || byte == JOIN
}
