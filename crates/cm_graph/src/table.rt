// The keyword tables of a place.
ghost use Rattle.std.specs.Prelude.{◌≡◌, ◌≤◌, IfOk, length};
ghost use Rattle.cm_text.specs.declared.name.TheConstants.{NAME_LIMIT};
ghost use Rattle.std.specs.Option.{option_copied};
ghost use Rattle.cm_graph.specs.Tables.{all_same, are_same_entries, entry_of, inserted, is_less, is_same_entry, is_same_help, node_of, number_of, rank_of};
ghost use Rattle.cm_tables.specs.Order.{text_order};

use cm_tables::{Entry, Flag, Table};
use cm_text::Name;
use std::alloc::AllocError;
use std::cmp::Ordering;

// The node of a place.
pub(crate) fn node_of(place: usize) -> u16
    ensures { result ≡ node_of place }
{
    place.min(65535) as u16
}

// The entry with a text.
pub(crate) fn entry_of(text: &str, colon: bool, help: Option<Name>, place: usize) -> Entry
    requires { length text.now ≤ NAME_LIMIT }
    ensures { result ≡ entry_of text.now colon help place }
{
    Entry {
        text: Name::new(text),
        flag: Flag::Plain,
        colon,
        code: 0,
        next: node_of(place),
        help,
    }
}

// The order of two texts: letters have no case.
fn text_order(text: &[u8], other: &[u8]) -> Ordering
    ensures { result ≡ text_order text.now other.now }
{
    let letters = text.iter().map(|byte| byte.to_ascii_lowercase());
    letters.cmp(other.iter().map(|byte| byte.to_ascii_lowercase()))
}

// Whether a text is below another.
fn is_below(text: &[u8], other: &[u8]) -> bool
    ensures { result ≡ is_less (text_order text.now other.now) }
{
    matches!(text_order(text, other), Ordering::Less)
}

// How many entries stand before the first whose text is above this.
fn rank_of(entries: &[Entry], text: &[u8]) -> usize
    ensures value { result ≡ rank_of entries.now text.now }
    ensures within { result ≤ length entries.now }
{
    entries
        .iter()
        .take_while(|one| !is_below(text, one.text.as_bytes()))
        .count()
}

// Puts an entry in its place among others.
pub(crate) fn insert(entries: &mut Vec<Entry>, new: Entry) -> Result<(), AllocError>
    ensures { IfOk result (λ _. entries.new.items ≡ inserted entries.old.items new) }
{
    let at = rank_of(entries, new.text.as_bytes());
    entries.insert(at, new)?;
    Ok(())
}

fn is_same_help(help: Option<&Name>, other: Option<&Name>) -> bool
    ensures { result ≡ is_same_help (option_copied help.entry) (option_copied other.entry) }
{
    match (help, other) {
        (None, None) => true,
        (Some(help), Some(other)) => help.as_bytes() == other.as_bytes(),
        _ => false,
    }
}

// Whether two entries read the same, are shown alike and lead to one place.
fn is_same_entry(one: &Entry, other: &Entry) -> bool
    ensures { result ≡ is_same_entry one.now other.now }
{
    one.text.as_bytes() == other.text.as_bytes()
        && one.colon == other.colon
        && one.next == other.next
        && is_same_help(one.help.as_ref(), other.help.as_ref())
}

fn are_same_entries(ones: &[Entry], others: &[Entry]) -> bool
    ensures { result ≡ are_same_entries ones.now others.now }
{
    if ones.len() != others.len() {
        return false;
    }
    for at in 0..ones.len() {
        if !is_same_entry(&ones[at], &others[at]) {
            return false;
        }
    }
    true
}

// The number of the first table with these entries, or that of the next.
pub(crate) fn number_of(tables: &[Table], entries: &[Entry]) -> usize
    ensures value { result ≡ number_of tables.now entries.now }
    ensures within { result ≤ length tables.now }
{
    tables
        .iter()
        .take_while(|table| !are_same_entries(table.entries(), entries))
        .count()
}
