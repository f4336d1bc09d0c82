// A plain reading of a keyword table, beside the one that halves: each entry is looked at, in order.
use crate::tables::entries_of;
use cm_tables::{Entry, Flag, Look, Table};
use cm_text::{begins_with, equals};
use std::alloc::{AllocError, Global};
use std::process::Abort;
use std::test::Fail;

// Whether an atom may abbreviate an entry.
fn is_candidate(entry: &Entry, atom: &[u8]) -> bool {
    matches!(entry.flag, Flag::Plain | Flag::Invisible) && begins_with(entry.text.as_bytes(), atom)
}

// What an entry gives whose text is the atom.
fn exact(position: u16, flag: Flag) -> Look {
    match flag {
        Flag::Plain | Flag::Invisible => Look::Exact(position),
        Flag::NoRecognise => Look::Ambiguous,
        Flag::Short(target) => Look::Exact(target),
    }
}

// What the entries have for an atom: the one whose text it is goes before those that it may abbreviate.
fn found(entries: &[Entry], atom: &[u8]) -> Look {
    let mut found = Look::None;
    let mut position = 0_u16;
    for entry in entries {
        if equals(entry.text.as_bytes(), atom) {
            return exact(position, entry.flag);
        }
        if is_candidate(entry, atom) {
            found = match found {
                Look::None => Look::Abbrev(position),
                _ => Look::Ambiguous,
            };
        }
        position = position.saturating_add(1);
    }
    found
}

// The byte that all entries have at a place which the atom may abbreviate, if they have one.
fn shared(entries: &[Entry], atom: &[u8], place: usize) -> Option<u8> {
    let mut shared = None;
    for entry in entries {
        if is_candidate(entry, atom) {
            let byte = *entry.text.as_bytes().get(place)?;
            if *shared.get_or_insert(byte) != byte {
                return None;
            }
        }
    }
    shared
}

// The first entry from a position on that a list shows.
fn listed(entries: &[Entry], from: u16, atom: &[u8]) -> Option<u16> {
    let mut position = 0_u16;
    for entry in entries {
        if from <= position
            && entry.flag == Flag::Plain
            && begins_with(entry.text.as_bytes(), atom)
        {
            return Some(position);
        }
        position = position.saturating_add(1);
    }
    None
}

// The table answers as the walk does.
fn agrees(rt: &impl Abort, table: &Table, atom: &[u8]) {
    let entries = table.entries();
    assert_eq!(rt; table.look(atom), found(entries, atom), "{atom:?}");
    let common = table.common(atom);
    let mut place = atom.len();
    for byte in common.as_bytes() {
        assert_eq!(rt; Some(*byte), shared(entries, atom, place), "{atom:?}");
        place = place.saturating_add(1);
    }
    assert_eq!(rt; None, shared(entries, atom, place), "{atom:?}");
    for from in 0..8 {
        assert_eq!(rt;
            table.next_listed(from, atom),
            listed(entries, from, atom),
            "{atom:?}"
        );
    }
}

// For each beginning of a text, in small letters too, and for each with a byte more.
fn agrees_along(
    rt: &impl Abort,
    alloc: Global,
    table: &Table,
    text: &[u8],
) -> Result<(), AllocError> {
    for size in 0..=text.len() {
        let atom = &text[..size];
        let mut small = Vec::new(alloc);
        for byte in atom {
            small.push(byte.to_ascii_lowercase())?;
        }
        agrees(rt, table, atom);
        agrees(rt, table, small.as_slice());
        small.push(b'-')?;
        agrees(rt, table, small.as_slice());
    }
    Ok(())
}

const TABLES: &str = "\

ABLE BAKER
INFORMATION KJOB:Invisible L:NoRecognise LO:NoRecognise LOGOUT
T:2 TAKE TYPE
INFORMATION KJOB:Invisible LOGIN LOGOUT:Invisible
CON:1 CONTINUE L:NoRecognise LO:NoRecognise LOGOUT NO:NoRecognise
L:NoRecognise LOGIN:Invisible LOGOUT
A AB ABC:Invisible ABC-D:NoRecognise ABCD B:6 BE";

#[test]
fn answers_as_a_walk_does(rt: HostRuntime) -> Result<(), Fail> {
    for keywords in TABLES.lines() {
        let table = Table::new(entries_of(&rt, rt.alloc(), keywords)?)?;
        agrees(&rt, &table, b"");
        for entry in table.entries() {
            agrees_along(&rt, rt.alloc(), &table, entry.text.as_bytes())?;
        }
    }
    Ok(())
}
