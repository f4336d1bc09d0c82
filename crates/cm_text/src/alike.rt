// Texts that begin alike.
ghost use Rattle.std.specs.Prelude.{◌≡◌, ◌≤◌, ◌==◌, length};
ghost use Rattle.std.specs.List.{common_prefix_len};

/// How many bytes two texts begin with alike. Bytes are compared as they are, so that the case of letters counts.
pub fn common_len(text: &[u8], other: &[u8]) -> usize
    ensures value { result ≡ common_prefix_len ◌==◌ text.now other.now }
    ensures within_text { result ≤ length text.now }
    ensures within_other { result ≤ length other.now }
{
    text.iter()
        .zip(other)
        .take_while(|(byte, other)| byte == other)
        .count()
}
