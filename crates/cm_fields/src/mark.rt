// Single bytes: a comma, and the end of the line.
ghost use Rattle.std.specs.Prelude.{◌≡◌, ◌≤◌, drop, length};
ghost use Rattle.cm_fields.specs.Mark.{comma, confirm};

use crate::trial::said;
use crate::{Code, Try, Value};
use cm_text::TEXT_LIMIT;

/// A comma (.CMCMA). Any other byte is refused with NotComma.
pub fn comma(text: &[u8], at: usize) -> Try
    requires short { length text.now ≤ TEXT_LIMIT }
    requires place { at ≤ length text.now }
    ensures { result ≡ comma (drop at text.now) at }
{
    match &text[at..] {
        [] => Try::More,
        [b',', ..] => said(at, 1, 1, Ok(Value::Comma)),
        _ => said(at, 0, 1, Err(Code::NotComma)),
    }
}

/// The end of the line (.CMCFM): a carriage return, which itself is left. Any other byte is refused with
/// NotConfirmed.
pub fn confirm(text: &[u8], at: usize) -> Try
    requires short { length text.now ≤ TEXT_LIMIT }
    requires place { at ≤ length text.now }
    ensures { result ≡ confirm (drop at text.now) at }
{
    match &text[at..] {
        [] => Try::More,
        [b'\r', ..] => said(at, 0, 1, Ok(Value::Confirm)),
        _ => said(at, 0, 1, Err(Code::NotConfirmed)),
    }
}
