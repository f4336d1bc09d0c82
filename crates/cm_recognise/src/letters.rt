// The case in which a keyword goes on of which the beginning is typed.
ghost use Rattle.std.specs.Prelude.{◌≡◌, ◌≤◌, length, map};
ghost use Rattle.std.specs.Char.{is_ascii_lowercase, is_ascii_uppercase, to_ascii_uppercase};
ghost use Rattle.std.specs.List.{list_any};
ghost use Rattle.cm_recognise.specs.Capitals.{are_capitals, in_case};

use crate::Bytes;
use cm_text::LINE_LIMIT;

// Whether a text has a capital letter.
fn has_capital(text: &[u8]) -> bool
    ensures { result ≡ list_any is_ascii_uppercase text.now }
{
    text.iter().any(|byte| byte.is_ascii_uppercase())
}

// Whether a text has a small letter.
fn has_small_letter(text: &[u8]) -> bool
    ensures { result ≡ list_any is_ascii_lowercase text.now }
{
    text.iter().any(|byte| byte.is_ascii_lowercase())
}

// Whether letters are typed, and all of them are capitals.
fn are_capitals(typed: &[u8]) -> bool
    ensures { result ≡ are_capitals typed.now }
{
    has_capital(typed) && !has_small_letter(typed)
}

// A text in capitals.
#[tactic(auto, using(cm_lists::proofs::Ascii::up_more, cm_lists::proofs::Ascii::up_all))]
fn capitals(text: &[u8]) -> Bytes
    requires { length text.now ≤ LINE_LIMIT }
    ensures { result ≡ map to_ascii_uppercase text.now }
{
    let mut capitals = Bytes::new();
    for byte in text {
        capitals.append(&[byte.to_ascii_uppercase()]);
    }
    capitals
}

// The rest of a text, after capitals in capitals, else as it is.
#[tactic(auto, using(crate::proofs::Capitals::case_length))]
pub(crate) fn in_case(typed: &[u8], rest: &[u8]) -> Bytes
    requires { length rest.now ≤ LINE_LIMIT }
    ensures value { result ≡ in_case typed.now rest.now }
    ensures short { length result ≤ length rest.now }
{
    if are_capitals(typed) {
        return capitals(rest);
    }
    Bytes::of(rest)
}
