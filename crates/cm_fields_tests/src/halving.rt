// How often a search by halving asks its test, and how many entries of a table a look-up looks at.
use cm_tables::{Entry, Look, Table};
use cm_text::{NAME_LIMIT, seek};
use std::alloc::Global;
use std::process::Abort;
use std::test::Fail;

// How often a search for a number among these asks.
fn probes(items: &[u16], wanted: u16) -> u64 {
    let mut probes = 0;
    seek(items, |item| *item < wanted, &mut probes);
    probes
}

// The same, and how often its test is asked, by the count of the test itself.
fn asked(items: &[u16], wanted: u16) -> (u64, u64) {
    let mut probes = 0;
    let mut calls = 0_u64;
    seek(
        items,
        |item| {
            calls = calls.saturating_add(1);
            *item < wanted
        },
        &mut probes,
    );
    (probes, calls)
}

// The numbers 0, 1, 2, .. in their order.
fn numbers<const N: usize>() -> [u16; N] {
    let mut items = [0; N];
    let mut next = 0_u16;
    for item in items.iter_mut() {
        *item = next;
        next = next.saturating_add(1);
    }
    items
}

#[test]
fn a_search_of_1024_elements_asks_11_times(rt: HostRuntime) {
    let items = numbers::<1024>();
    for wanted in [0, 1, 511, 512, 513, 1023, 1024] {
        assert!(rt; probes(&items, wanted) <= 11, "at {wanted}");
    }
}

#[test]
fn a_search_asks_as_often_as_its_counter_says(rt: HostRuntime) {
    let items = numbers::<1024>();
    for size in 0..1025_usize {
        let (probes, calls) = asked(&items[..size], (size / 3) as u16);
        assert!(rt; calls == probes, "of {size}");
    }
}

#[test]
fn a_search_of_4096_elements_asks_13_times(rt: HostRuntime) {
    let items = numbers::<4096>();
    for wanted in [0, 1, 2047, 2048, 2049, 4095, 4096] {
        assert!(rt; probes(&items, wanted) <= 13, "at {wanted}");
    }
}

// The table of the keywords from 1000 to 2023.
fn table(rt: &impl Abort, alloc: Global) -> Result<Table, Fail> {
    let mut entries = Vec::new(alloc);
    for number in 1000..2024 {
        let text = format!(in alloc; "{number}")?;
        assert!(rt; text.len() <= NAME_LIMIT, "{number}");
        entries.push(Entry::new(text.as_str(), 0, 0))?;
    }
    Ok(Table::new(entries)?)
}

// Whether a look-up finds this, with few probes, and reads so many entries.
fn finds(rt: &impl Abort, table: &Table, atom: &str, wanted: Look, read: u64) {
    let (mut probes, mut reads) = (0, 0);
    let found = table.look_counted(atom.as_bytes(), &mut probes, &mut reads);
    assert_eq!(rt; found, wanted, "{atom}");
    assert!(rt; probes <= 11, "{atom}: {probes} probes");
    assert_eq!(rt; reads, read, "{atom}");
}

// [look-up-cost]
#[test]
fn a_look_up_in_1024_entries_asks_11_times(rt: HostRuntime) -> Result<(), Fail> {
    let table = table(&rt, rt.alloc())?;
    for (position, entry) in table.entries().iter().enumerate() {
        finds(
            &rt,
            &table,
            entry.text.as_str(),
            Look::Exact(position as u16),
            1,
        );
    }
    finds(&rt, &table, "", Look::Ambiguous, 3);
    finds(&rt, &table, "1", Look::Ambiguous, 3);
    finds(&rt, &table, "202", Look::Ambiguous, 3);
    finds(&rt, &table, "0", Look::None, 2);
    finds(&rt, &table, "2024", Look::None, 1);
    Ok(())
}
