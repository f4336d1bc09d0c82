// Names in the words of a line.
ghost use Rattle.std.specs.Prelude.{◌≡◌, ◌≤◌, length, true};
ghost use Rattle.std.specs.List.{list_all};
ghost use Rattle.std.specs.Str.{IsAscii};
ghost use Rattle.cm_text.specs.declared.name.TheConstants.{NAME_LIMIT};
ghost use Rattle.cm_synopsis.specs.Names.{is_name_byte, name_of};

use crate::Reason;
use cm_text::{NAME_LIMIT, Name};
use std::str;

// Whether a name may have a byte.
#[tactic(auto, unfolding(crate::specs::Names::is_name_byte))]
fn is_name_byte(byte: u8) -> bool
    ensures { result ≡ is_name_byte byte }
{
    byte.is_ascii_alphanumeric() || byte == b'-' || byte == b'_' || byte == b'.'
}

// Whether a text has such bytes alone.
fn is_name_text(text: &[u8]) -> bool
    ensures { result ≡ list_all is_name_byte text.now }
{
    text.iter().all(|byte| is_name_byte(*byte))
}

// The name with this text.
#[tactic(auto, using(cm_lists::proofs::Ascii::text_of_ascii))]
pub(crate) fn short_name(text: &[u8]) -> Name
    requires ascii { IsAscii text.now }
    requires short { length text.now ≤ NAME_LIMIT }
    ensures { result ≡ text.now }
{
    match str::from_utf8(text) {
        Ok(text) => Name::new(text),
        Err(_) => unreachable!(),
    }
}

// The name that a text is.
#[tactic(auto, using(crate::proofs::Ascii::name_ascii))]
pub(crate) fn name_of(text: &[u8]) -> Result<Name, Reason>
    ensures { result ≡ name_of text.now }
{
    if text.is_empty() {
        return Err(Reason::NoName);
    }
    if !is_name_text(text) {
        return Err(Reason::BadWord);
    }
    if text.len() > NAME_LIMIT {
        return Err(Reason::LongWord);
    }
    Ok(short_name(text))
}
