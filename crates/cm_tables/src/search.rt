// The look-up of an atom in the entries of a table.
ghost use Rattle.std.specs.Prelude.{◌≡◌, ◌+◌, ◌-◌, ◌*◌, ◌^◌, ◌<◌, ◌≤◌, length};
ghost use Rattle.std.specs.Bool.{OnTrue};
ghost use Rattle.cm_tables.specs.Look.{abbreviated, exact, has_text, look};
ghost use Rattle.cm_tables.specs.Search.{AreNotBelow, Ascends, candidates_from, is_first, wholes};

use crate::fault::ENTRY_LIMIT;
use crate::start::from_first;
use crate::{Entry, Flag, Look};
use cm_text::{begins_with, equals};

// Whether the first of the entries has the atom for its text.
fn is_first(entries: &[Entry], atom: &[u8]) -> bool
    ensures value { result ≡ is_first entries.now atom.now }
    ensures some { OnTrue result (0 < length entries.now) }
{
    match entries.first() {
        Some(entry) => equals(entry.text.as_bytes(), atom),
        None => false,
    }
}

// Whether the text of some entry is the atom.
pub(crate) fn has_text(entries: &[Entry], atom: &[u8]) -> bool
    requires { Ascends entries.now }
    ensures { result ≡ has_text entries.now atom.now }
{
    let mut probes = 0;
    is_first(from_first(entries, atom, &mut probes).1, atom)
}

// What an entry at a position gives for its own text.
fn exact(position: u16, flag: Flag) -> Look
    ensures { result ≡ exact position flag }
{
    match flag {
        Flag::Plain | Flag::Invisible => Look::Exact(position),
        Flag::NoRecognise => Look::Ambiguous,
        Flag::Short(target) => Look::Exact(target),
    }
}

// What entries from a position on give that the atom may abbreviate. Those that begin with the atom come first, and
// no more of them are read than decide. How many are read is added to `reads`.
fn abbreviated(start: usize, entries: &[Entry], atom: &[u8], reads: &mut u64) -> Look
    requires few { start + length entries.now ≤ ENTRY_LIMIT }
    requires above { AreNotBelow atom.now entries.now }
    requires order { Ascends entries.now }
    ensures value { result ≡ abbreviated (candidates_from start entries.now atom.now) }
    ensures near { reads.new ≤ reads.old + (length (wholes entries.now atom.now) + 2) }
{
    let mut found = None;
    for (offset, entry) in entries.iter().enumerate() {
        *reads = reads.saturating_add(1);
        if !begins_with(entry.text.as_bytes(), atom) {
            return found.map_or(Look::None, Look::Abbrev);
        }
        if entry.flag.is_recognised() {
            if found.is_some() {
                return Look::Ambiguous;
            }
            found = Some((start + offset) as u16);
        }
    }
    found.map_or(Look::None, Look::Abbrev)
}

// What the entries give for an atom.
pub(crate) fn look(entries: &[Entry], atom: &[u8], probes: &mut u64, reads: &mut u64) -> Look
    requires few { length entries.now ≤ ENTRY_LIMIT }
    requires order { Ascends entries.now }
    ensures value { result ≡ look entries.now atom.now }
    ensures few { 2 ^ (probes.new - probes.old) ≤ 2 * length entries.now + 1 }
    ensures near { reads.new ≤ reads.old + (length (wholes entries.now atom.now) + 3) }
{
    let (start, after) = from_first(entries, atom, probes);
    *reads = reads.saturating_add(1);
    if is_first(after, atom) {
        return exact(start as u16, after[0].flag);
    }
    abbreviated(start, after, atom, reads)
}
