// Short names that are copied.
ghost use Rattle.std.specs.Prelude.{◌≡◌, ◌≤◌, length};
ghost use Rattle.cm_state.specs.Label.{label_name, label_of};

use cm_text::{NAME_LIMIT, Name, pad};

/// The name in a prompt that is made at run time: at most 39 bytes, which lie in the value itself and are copied with
/// it. One name is one label.
#[derive(Clone, Copy, Debug, PartialEq, Eq)]
pub struct Label {
    cells: [u8; NAME_LIMIT],
    size: u8,
}

impl Label {
    /// The name as a prompt holds it.
    #[tactic(auto, using(crate::specs::LabelLaws::label_has_name), unfolding(crate::specs::Label::label_of))]
    pub fn of(name: &Name) -> Label
        ensures value { result ≡ label_of name.now }
        ensures name { label_name result ≡ name.now }
    {
        let text = name.as_bytes();
        Label {
            cells: pad(text),
            size: text.len() as u8,
        }
    }

    /// The bytes of the name.
    #[tactic(auto, unfolding(crate::specs::Label::label_name))]
    pub fn as_bytes(&self) -> &[u8]
        ensures value { result.now ≡ label_name self.now }
        ensures within { length result.now ≤ NAME_LIMIT }
    {
        &self.cells[..usize::from(self.size).min(NAME_LIMIT)]
    }
}
