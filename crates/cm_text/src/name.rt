// Short names.
ghost use Rattle.std.specs.Prelude.{◌≡◌, ◌<◌, ◌≤◌, ◌↔◌, ℕ, List, [], ◌∷◌, ◌++◌, IsTrue, Some, length, refl};
ghost use Rattle.std.specs.Bool.{OnTrue, OnFalse};
ghost use Rattle.std.specs.Cmp.{partial_equiv_from_equiv};
ghost use Rattle.std.specs.Cmp.Lexicographic.{nat_list_cmp_total, nat_list_eq_equiv, slice_cmp, texts_po, texts_ties};
ghost use Rattle.std.specs.Cmp.Rules.{hashing};
ghost use Rattle.std.specs.Hash as fed;
ghost use Rattle.std.specs.Ordering.{nat_cmp};
ghost use Rattle.std.specs.Str.{bytes_eq};
ghost use Rattle.std.proofs.Common.{rules};
ghost use Rattle.cm_text.specs.Padding.{padded};

use arrayvec::ArrayString;
use std::cmp::Ordering;
use std::hash::{Hash, Hasher};
use std::marker::Model;

/// The most bytes that a name has.
pub const NAME_LIMIT: usize = 39;

/// A text of at most 39 bytes, kept in the value itself. Contracts see its bytes.
#[derive(Clone, Debug, Drop)]
pub struct Name {
    text: ArrayString<NAME_LIMIT>,
}

impl Model for Name {
    ghost Value = { List ℕ };

    ghost view = { λ name. name.text.bytes };
}

impl Name {
    /// The name with this text.
    pub fn new(text: &str) -> Name
        requires { length text.now ≤ NAME_LIMIT }
        ensures { result ≡ text.now }
    {
        let mut name = ArrayString::new();
        name.push_str(text);
        Name { text: name }
    }

    /// Puts an ASCII byte after the name. False where the name has 39 bytes, which then stays as it was.
    pub fn push(&mut self, byte: u8) -> bool
        requires { byte < 128 }
        ensures fits { IsTrue result ↔ (length self.old < NAME_LIMIT) }
        ensures pushed { OnTrue result (self.new ≡ self.old ++ byte ∷ []) }
        ensures full { OnFalse result (self.new ≡ self.old) }
    {
        self.text.try_push(char::from(byte)).is_ok()
    }

    /// The bytes of the name.
    pub fn as_bytes(&self) -> &[u8]
        ensures value { result.now ≡ self.now }
        ensures within { length result.now ≤ NAME_LIMIT }
    {
        self.text.as_str().as_bytes()
    }

    /// The name as a text.
    pub fn as_str(&self) -> &str
        ensures value { result.now ≡ self.now }
        ensures within { length result.now ≤ NAME_LIMIT }
    {
        self.text.as_str()
    }
}

/// The bytes of a text of at most 39 bytes, with zeros after them: so a value that is copied holds a short text.
pub fn pad(text: &[u8]) -> [u8; NAME_LIMIT]
    requires { length text.now ≤ NAME_LIMIT }
    ensures { result ≡ padded text.now }
{
    let mut bytes = [0; NAME_LIMIT];
    bytes[..text.len()].copy_from_slice(text);
    bytes
}

// Names are compared by their bytes.
impl PartialEq for Name {
    ghost eq = { bytes_eq };

    ghost laws = { partial_equiv_from_equiv nat_list_eq_equiv };

    fn eq(&self, other: &Self) -> bool {
        self.text == other.text
    }
}

impl Eq for Name {
    ghost laws = { nat_list_eq_equiv };
}

impl PartialOrd for Name {
    ghost partial_cmp = { λ name other. Some (slice_cmp nat_cmp name other) };

    ghost laws = { texts_po };

    fn partial_cmp(&self, other: &Self) -> Option<Ordering> {
        Some(self.cmp(other))
    }
}

impl Ord for Name {
    ghost cmp = { slice_cmp nat_cmp };

    ghost total = { nat_list_cmp_total };

    ghost matches_partial_cmp = { λ name other. refl };

    ghost matches_eq = { texts_ties };

    fn cmp(&self, other: &Self) -> Ordering {
        self.text.cmp(&other.text)
    }
}

impl Hash for Name {
    ghost hash_input = { λ name. fed.str name };

    ghost respects_eq = { Prim.search (hashing, rules) };

    fn hash<H: Hasher>(&self, state: &mut H) {
        self.text.hash(state);
    }
}
