// How the entries go on alike that an atom may abbreviate.
ghost use Rattle.std.specs.Prelude.{◌≡◌, ◌≤◌, drop, length, nat_eq};
ghost use Rattle.std.specs.List.{common_prefix_len};
ghost use Rattle.std.specs.Option.{option_copied, option_map_or};
ghost use Rattle.std.specs.Str.{IsAscii};
ghost use Rattle.cm_text.specs.BeginLaws.{lower};
ghost use Rattle.cm_tables.specs.Common.{common, shared_letters};
ghost use Rattle.cm_tables.specs.Search.{Ascends};

use crate::Entry;
use crate::start::from_first;
use cm_text::{NAME_LIMIT, Name, begins_with};

// How many bytes two texts begin with alike, with no regard to the case of letters.
fn shared_len(text: &[u8], other: &[u8]) -> usize
    ensures value { result ≡ common_prefix_len nat_eq (lower text.now) (lower other.now) }
    ensures within_text { result ≤ length text.now }
    ensures within_other { result ≤ length other.now }
{
    text.iter()
        .zip(other)
        .take_while(|(byte, other)| byte.eq_ignore_ascii_case(other))
        .count()
}

// The longest text that both begin with but for the case of letters, as the first has it.
fn shared<'a>(text: &'a [u8], other: &[u8]) -> &'a [u8]
    ensures value { result.now ≡ shared_letters text.now other.now }
    ensures within { length result.now ≤ length other.now }
{
    &text[..shared_len(text, other)]
}

// What is after an atom in an entry that is no shorter.
fn rest<'a>(entry: &'a Entry, atom: &[u8]) -> &'a [u8]
    requires { length atom.now ≤ length entry.now.text }
    ensures value { result.now ≡ drop (length atom.now) entry.now.text }
    ensures within { length result.now ≤ NAME_LIMIT }
{
    &entry.text.as_bytes()[atom.len()..]
}

// What a text shares with those that were found before it.
fn shared_with<'a>(found: Option<&'a [u8]>, text: &'a [u8]) -> &'a [u8]
    ensures value { result.now
        ≡ option_map_or (λ before. shared_letters before text.now) (option_copied found.entry) text.now }
    ensures within { length result.now ≤ length text.now }
{
    match found {
        Some(before) => shared(before, text),
        None => text,
    }
}

// The longest text with which all entries go on that the atom may abbreviate.
#[tactic(auto, unfolding(crate::specs::Common::common), using(crate::proofs::CommonLemmas::atom_fits))]
fn common_text<'a>(entries: &'a [Entry], atom: &[u8]) -> &'a [u8]
    requires { Ascends entries.now }
    ensures value { result.now ≡ common entries.now atom.now }
    ensures within { length result.now ≤ NAME_LIMIT }
{
    let mut probes = 0;
    let mut found = None;
    for entry in from_first(entries, atom, &mut probes).1 {
        if !begins_with(entry.text.as_bytes(), atom) {
            return found.unwrap_or(&[]);
        }
        if entry.flag.is_recognised() {
            found = Some(shared_with(found, rest(entry, atom)));
        }
    }
    found.unwrap_or(&[])
}

// The name with this text.
#[tactic(auto, using(cm_lists::proofs::Ascii::text_of_ascii))]
fn name_of(text: &[u8]) -> Name
    requires ascii { IsAscii text.now }
    requires short { length text.now ≤ NAME_LIMIT }
    ensures { result ≡ text.now }
{
    match str::from_utf8(text) {
        Ok(text) => Name::new(text),
        Err(_) => unreachable!(),
    }
}

// The same as a name, since keywords are ASCII.
#[tactic(auto, using(crate::proofs::AsciiLemmas::common_is_ascii))]
pub(crate) fn common(entries: &[Entry], atom: &[u8]) -> Name
    requires { Ascends entries.now }
    ensures value { result ≡ common entries.now atom.now }
    ensures within { length result ≤ NAME_LIMIT }
{
    name_of(common_text(entries, atom))
}
