// Guide words and fixed texts.
ghost use Rattle.std.specs.Prelude.{◌≡◌, ◌+◌, ◌≤◌, drop, length};
ghost use Rattle.std.specs.List.{common_prefix_len, prefix_len};
ghost use Rattle.cm_fields.specs.Phrase.{is_inside, noise, same_letter, token, typed_noise};

use crate::trial::said;
use crate::{Code, Try, Value};
use cm_text::{TEXT_LIMIT, begins_with};

// How many bytes are before a closing parenthesis or the end of the line.
fn inside_run(inside: &[u8]) -> usize
    ensures value { result ≡ prefix_len is_inside inside.now }
    ensures within { result ≤ length inside.now }
{
    inside
        .iter()
        .take_while(|byte| **byte != b')' && **byte != b'\r')
        .count()
}

// How many bytes of a phrase a text begins with, with no regard to the case of letters.
fn same_letters(phrase: &[u8], rest: &[u8]) -> usize
    ensures value { result ≡ common_prefix_len same_letter phrase.now rest.now }
    ensures within_phrase { result ≤ length phrase.now }
    ensures within { result ≤ length rest.now }
{
    phrase
        .iter()
        .zip(rest)
        .take_while(|(byte, other)| byte.eq_ignore_ascii_case(other))
        .count()
}

// What is after an opening parenthesis.
#[tactic(auto, unfolding(crate::specs::Phrase::typed_noise))]
fn typed_noise(phrase: &str, inside: &[u8], at: usize) -> Try
    requires { at + length inside.now ≤ TEXT_LIMIT }
    ensures { result ≡ typed_noise phrase.now inside.now at }
{
    let size = inside_run(inside);
    if size == inside.len() {
        return Try::More;
    }
    let matches = inside[size] == b')' && begins_with(phrase.as_bytes(), &inside[..size]);
    let decision = if matches {
        Ok(Value::Noise(true))
    } else {
        Err(Code::BadNoise)
    };
    said(at, size + 2, size + 2, decision)
}

/// A guide word (.CMNOI): a beginning of the phrase in parentheses. Where no parenthesis stands it is absent,
/// and the field has no bytes. Refused with BadNoise where something else is in the parentheses, or the
/// line ends in them.
pub fn noise(phrase: &str, text: &[u8], at: usize) -> Try
    requires short { length text.now ≤ TEXT_LIMIT }
    requires place { at ≤ length text.now }
    ensures { result ≡ noise phrase.now (drop at text.now) at }
{
    match &text[at..] {
        [] => Try::More,
        [b'(', inside @ ..] => typed_noise(phrase, inside, at),
        _ => said(at, 0, 1, Ok(Value::Noise(false))),
    }
}

/// A fixed text (.CMTOK), with no regard to the case of letters. Refused with NotToken at the first byte that
/// differs.
#[tactic(auto, unfolding(crate::specs::Phrase::token))]
pub fn token(phrase: &str, text: &[u8], at: usize) -> Try
    requires short { length text.now ≤ TEXT_LIMIT }
    requires place { at ≤ length text.now }
    ensures { result ≡ token phrase.now (drop at text.now) at }
{
    let rest = &text[at..];
    let size = same_letters(phrase.as_bytes(), rest);
    if size == phrase.len() {
        return said(at, size, size, Ok(Value::Token));
    }
    if size == rest.len() {
        return Try::More;
    }
    said(at, 0, size + 1, Err(Code::NotToken))
}
