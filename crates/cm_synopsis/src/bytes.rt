// The classes of bytes.
ghost use Rattle.std.specs.Prelude.{◌≡◌, ◌≤◌, ◌==◌, not, length};
ghost use Rattle.std.specs.List.{list_all, prefix_len};
ghost use Rattle.cm_synopsis.specs.Bytes.{ends_in, is_blank, is_digit, is_fine, is_plain, is_sign};

// Whether a byte parts words: a space, TAB or carriage return.
#[tactic(auto, unfolding(crate::specs::Bytes::is_blank))]
pub(crate) fn is_blank(byte: u8) -> bool
    ensures { result ≡ is_blank byte }
{
    byte == b' ' || byte == b'\t' || byte == b'\r'
}

// Whether a byte is a word by itself.
#[tactic(auto, unfolding(crate::specs::Bytes::is_sign))]
pub(crate) fn is_sign(byte: u8) -> bool
    ensures { result ≡ is_sign byte }
{
    matches!(byte, b'[' | b']' | b'<' | b'>' | b'{' | b'}' | b'|')
}

// Whether a byte goes on with a word that is neither a sign nor in parentheses.
#[tactic(auto, unfolding(crate::specs::Bytes::is_plain))]
pub(crate) fn is_plain(byte: u8) -> bool
    ensures { result ≡ is_plain byte }
{
    !is_blank(byte) && !is_sign(byte) && byte != b'('
}

// Whether a line may have a byte: a blank, or one of 33 to 126.
#[tactic(auto, unfolding(crate::specs::Bytes::is_fine))]
fn is_fine(byte: u8) -> bool
    ensures { result ≡ is_fine byte }
{
    is_blank(byte) || matches!(byte, b'!'..=b'~')
}

// Whether a line may have all of these.
pub(crate) fn is_fine_text(bytes: &[u8]) -> bool
    ensures { result ≡ list_all is_fine bytes.now }
{
    bytes.iter().all(|byte| is_fine(*byte))
}

// How many bytes are before this one.
pub(crate) fn run_before(last: u8, bytes: &[u8]) -> usize
    ensures value { result ≡ prefix_len (λ byte. not (byte == last)) bytes.now }
    ensures within { result ≤ length bytes.now }
{
    bytes.iter().take_while(|byte| **byte != last).count()
}

// Whether the last byte is this one.
pub(crate) fn ends_in(last: u8, run: &[u8]) -> bool
    ensures { result ≡ ends_in last run.now }
{
    match run.last() {
        Some(&byte) => byte == last,
        None => false,
    }
}

// Whether a byte is a decimal digit.
pub(crate) fn is_digit(byte: u8) -> bool
    ensures { result ≡ is_digit byte }
{
    matches!(byte, b'0'..=b'9')
}

// How many blanks are in front.
pub(crate) fn blank_run(text: &[u8]) -> usize
    ensures value { result ≡ prefix_len is_blank text.now }
    ensures within { result ≤ length text.now }
{
    text.iter().take_while(|byte| is_blank(**byte)).count()
}

// How many bytes are before the first that no line may have.
pub(crate) fn fine_run(text: &[u8]) -> usize
    ensures value { result ≡ prefix_len is_fine text.now }
    ensures within { result ≤ length text.now }
{
    text.iter().take_while(|byte| is_fine(**byte)).count()
}
