// The lists, and the names in them.
ghost use Rattle.std.specs.Prelude.{◌≡◌, List, length, map, slice_get, true, vec_items};
ghost use Rattle.std.specs.List.{list_all};
ghost use Rattle.cm_speech.specs.Rules.{are_texts, is_speech_byte, is_speech_text, list_of};

use crate::FIRST_LIST_HOOK;
use cm_text::{NAME_LIMIT, Name, is_name};

// Whether a field may have a byte.
#[tactic(auto, unfolding(crate::specs::Rules::is_speech_byte))]
pub(crate) fn is_speech_byte(byte: u8) -> bool
    ensures { result ≡ is_speech_byte byte }
{
    is_name(byte) || byte == b'.' || byte == b':' || byte == b'/'
}

// The list of the hook with this id, which is empty where there is none.
#[tactic(auto, unfolding(crate::specs::Rules::list_of), using(crate::proofs::Lists::list_there, crate::proofs::Lists::list_past))]
pub(crate) fn list_of(lists: &[Vec<Name>], id: u8) -> &[Name]
    ensures { result.now ≡ list_of (map vec_items lists.now) id }
{
    if id < FIRST_LIST_HOOK {
        return &[];
    }
    let place = usize::from(id - FIRST_LIST_HOOK);
    if place < lists.len() {
        return &lists[place];
    }
    &[]
}

// The name with this number.
pub(crate) fn name_at(names: &[Name], number: usize) -> Option<Name>
    ensures { result ≡ slice_get names.now number }
{
    if number < names.len() {
        return Some(Name::new(names[number].as_str()));
    }
    None
}

// Whether a field may have each of these bytes.
fn are_bytes(bytes: &[u8]) -> bool
    ensures { result ≡ list_all is_speech_byte bytes.now }
{
    bytes.iter().all(|byte| is_speech_byte(*byte))
}

// Whether a name may be typed.
fn is_speech_text(name: &[u8]) -> bool
    ensures { result ≡ is_speech_text name.now }
{
    name.len() <= NAME_LIMIT && are_bytes(name)
}

// Whether each of some names may be.
pub(crate) fn are_texts(names: &[Name]) -> bool
    ensures { result ≡ are_texts names.now }
{
    names.iter().all(|name| is_speech_text(name.as_bytes()))
}
