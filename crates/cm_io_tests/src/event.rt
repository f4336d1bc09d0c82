// The parts of a line of a trace.
ghost use Rattle.std.specs.Prelude.{◌≡◌, ◌≤◌, length};
ghost use Rattle.std.specs.List.{after_first, before_first, position_or_len};
ghost use Rattle.cm_io_tests.specs.Trace.{is_space};

// The bytes before the first space, and those after it; all of them, and none, where there is no space.
pub(crate) fn split(line: &[u8]) -> (&[u8], &[u8])
    ensures before { result.0.now ≡ before_first is_space line.now }
    ensures after { result.1.now ≡ after_first is_space line.now }
{
    let (before, rest) = line.split_at(word_size(line));
    match rest {
        [_, after @ ..] => (before, after),
        [] => (before, rest),
    }
}

// How many bytes stand before the first space.
fn word_size(line: &[u8]) -> usize
    ensures value { result ≡ position_or_len is_space line.now }
    ensures within { result ≤ length line.now }
{
    line.iter().take_while(|byte| **byte != b' ').count()
}
