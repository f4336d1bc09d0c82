// Where the entries begin that begin with an atom, found by halving.
ghost use Rattle.std.specs.Prelude.{◌≡◌, ◌+◌, ◌-◌, ◌*◌, ◌^◌, ◌≤◌, length};
ghost use Rattle.cm_tables.specs.Search.{Ascends, IsFrom, is_below};

use crate::Entry;
use cm_text::seek;
use std::cmp::Ordering;

// Whether a text is below those that begin with the atom.
fn is_below(text: &[u8], atom: &[u8]) -> bool
    ensures { result ≡ is_below text.now atom.now }
{
    let [next, rest @ ..] = atom else {
        return false;
    };
    let [byte, more @ ..] = text else {
        return true;
    };
    match byte.to_ascii_lowercase().cmp(&next.to_ascii_lowercase()) {
        Ordering::Less => true,
        Ordering::Equal => is_below(more, rest),
        Ordering::Greater => false,
    }
}

// The entries that are not below those that begin with the atom, and the position of the first. How often
// texts are compared is added to `probes`.
pub(crate) fn from_first<'a>(
    entries: &'a [Entry],
    atom: &[u8],
    probes: &mut u64,
) -> (usize, &'a [Entry])
    requires { Ascends entries.now }
    ensures first { IsFrom atom.now entries.now result.0 result.1.now }
    ensures within { result.0 + length result.1.now ≤ length entries.now }
    ensures few { 2 ^ (probes.new - probes.old) ≤ 2 * length entries.now + 1 }
{
    let start = seek(
        entries,
        |entry| is_below(entry.text.as_bytes(), atom),
        probes,
    );
    (start, entries.split_at(start).1)
}
