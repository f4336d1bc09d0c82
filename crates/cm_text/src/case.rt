// Texts compared with no regard to the case of letters.
ghost use Rattle.std.specs.Prelude.{◌≡◌};
ghost use Rattle.cm_text.specs.Case.{begins_with, equals};

/// Whether two texts are one, with no regard to the case of letters.
pub fn equals(text: &[u8], other: &[u8]) -> bool
    ensures { result ≡ equals text.now other.now }
{
    text.eq_ignore_ascii_case(other)
}

/// Whether a text begins with another, with no regard to the case of letters.
#[tactic(auto, unfolding(crate::specs::Case::begins_with))]
pub fn begins_with(text: &[u8], other: &[u8]) -> bool
    ensures { result ≡ begins_with text.now other.now }
{
    let begin = text.len().min(other.len());
    equals(&text[..begin], other)
}
