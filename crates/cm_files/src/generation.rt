// Which generations a text means.
ghost use Rattle.std.specs.Prelude.{◌≡◌, true};
ghost use Rattle.std.specs.Char.{is_ascii_digit};
ghost use Rattle.std.specs.List.{list_all};
ghost use Rattle.std.specs.Str.Parse.{digits_value};
ghost use Rattle.cm_files.specs.Spec.{generation_of, numbered};

use cm_fields::{Gen, are_digits, value_of};
use cm_text::equals;

/// The last generation that a file may have.
pub const GENERATION_LIMIT: u32 = 131_071;

// The generation that digits write.
fn numbered(digits: &[u8]) -> Option<Gen>
    requires { list_all is_ascii_digit digits.now ≡ true }
    ensures { result ≡ numbered (digits_value 10 digits.now) }
{
    match value_of(digits, u64::from(GENERATION_LIMIT)) {
        Some(0) => Some(Gen::Highest),
        Some(value) => Some(Gen::Number(value as u32)),
        None => None,
    }
}

/// Which generations the text after the second point means; none where it means none.
#[tactic(auto, unfolding(crate::specs::Spec::generation_of))]
pub(crate) fn generation_of(text: &[u8]) -> Option<Gen>
    ensures { result ≡ generation_of text.now }
{
    if text.is_empty() {
        Some(Gen::Missing)
    } else if equals(text, b"*") || equals(text, b"-3") {
        Some(Gen::All)
    } else if equals(text, b"-1") {
        Some(Gen::Next)
    } else if equals(text, b"-2") {
        Some(Gen::Lowest)
    } else if are_digits(text) {
        numbered(text)
    } else {
        None
    }
}
