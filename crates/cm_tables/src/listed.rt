// The entries of a table that a list shows.
ghost use Rattle.std.specs.Prelude.{◌≡◌, ◌<◌, ◌≤◌, length, IfSome};
ghost use Rattle.cm_tables.specs.Listing.{is_plain, next_listed};
ghost use Rattle.cm_tables.specs.Search.{Ascends};

use crate::fault::ENTRY_LIMIT;
use crate::start::from_first;
use crate::{Entry, Flag};
use cm_text::begins_with;

// Whether a list shows such an entry.
fn is_plain(flag: Flag) -> bool
    ensures { result ≡ is_plain flag }
{
    matches!(flag, Flag::Plain)
}

// The position of the first such entry from a position on.
#[tactic(auto, using(crate::proofs::PlaceLaws::ascends_dropped))]
pub(crate) fn next_listed(entries: &[Entry], from: u16, atom: &[u8]) -> Option<u16>
    requires few { length entries.now ≤ ENTRY_LIMIT }
    requires order { Ascends entries.now }
    ensures value { result ≡ next_listed entries.now from atom.now }
    ensures within { IfSome result (λ position. (from ≤ position) × (position < length entries.now)) }
{
    let start = usize::from(from);
    if start > entries.len() {
        return None;
    }
    let (_, after) = entries.split_at(start);
    let mut probes = 0;
    let (first, rest) = from_first(after, atom, &mut probes);
    for (offset, entry) in rest.iter().enumerate() {
        if !begins_with(entry.text.as_bytes(), atom) {
            return None;
        }
        if is_plain(entry.flag) {
            return Some((start + first + offset) as u16);
        }
    }
    None
}
