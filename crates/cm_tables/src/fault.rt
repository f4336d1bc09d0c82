// The first fault of a list of entries that is no table.
ghost use Rattle.std.specs.Prelude.{◌≡◌, ◌<◌, ◌≤◌, ℕ, List, None, IfNone, length, slice_get};
ghost use Rattle.std.specs.Option.{option_copied};
ghost use Rattle.cm_tables.specs.Order.{has_help, helps_fault, is_keyword_byte, is_keyword, is_target, target_fault, targets_fault, text_fault, text_order, texts_fault, table_fault};

use crate::{Entry, Flag, TableFault};
use cm_text::{begins_with, is_shown};
use std::cmp::Ordering;

// The most entries that a table may have.
pub(crate) const ENTRY_LIMIT: usize = 1024;

fn is_keyword_byte(byte: u8) -> bool
    ensures { result ≡ is_keyword_byte byte }
{
    byte.is_ascii_alphanumeric() || byte == b'-'
}

fn is_keyword(text: &[u8]) -> bool
    ensures { result ≡ is_keyword text.now }
{
    !text.is_empty() && text.iter().all(|byte| is_keyword_byte(*byte))
}

// The order of two texts, with no regard to the case of letters.
fn text_order(text: &[u8], other: &[u8]) -> Ordering
    ensures { result ≡ text_order text.now other.now }
{
    let letters = text.iter().map(|byte| byte.to_ascii_lowercase());
    letters.cmp(other.iter().map(|byte| byte.to_ascii_lowercase()))
}

// The fault of one text, after the text before it.
fn text_fault(position: u16, before: Option<&[u8]>, text: &[u8]) -> Option<TableFault>
    ensures { result ≡ text_fault position (option_copied before.entry) text.now }
{
    if !is_keyword(text) {
        return Some(TableFault::BadText(position));
    }
    match text_order(before?, text) {
        Ordering::Less => None,
        Ordering::Equal => Some(TableFault::Repeat(position)),
        Ordering::Greater => Some(TableFault::Order(position)),
    }
}

// The first fault of the texts.
fn texts_fault(entries: &[Entry]) -> Option<TableFault>
    requires { length entries.now ≤ ENTRY_LIMIT }
    ensures { result ≡ texts_fault 0 None entries.now }
{
    let mut before = None;
    for (position, entry) in entries.iter().enumerate() {
        let text = entry.text.as_bytes();
        let fault = text_fault(position as u16, before, text);
        if fault.is_some() {
            return fault;
        }
        before = Some(text);
    }
    None
}

// Whether a Short entry of this text may stand for the entry at a position.
fn is_target(entries: &[Entry], text: &[u8], target: u16) -> bool
    ensures { result ≡ is_target text.now (slice_get entries.now target) }
{
    match entries.get(usize::from(target)) {
        Some(entry) => entry.flag.is_recognised() && begins_with(entry.text.as_bytes(), text),
        None => false,
    }
}

// The fault of what one entry stands for.
fn target_fault(entries: &[Entry], position: u16, entry: &Entry) -> Option<TableFault>
    ensures { result ≡ target_fault entries.now position entry.now.text entry.now.flag }
{
    match entry.flag {
        Flag::Short(target) if !is_target(entries, entry.text.as_bytes(), target) => {
            Some(TableFault::BadTarget(position))
        }
        _ => None,
    }
}

// The first fault of what the entries stand for.
fn targets_fault(entries: &[Entry]) -> Option<TableFault>
    requires { length entries.now ≤ ENTRY_LIMIT }
    ensures { result ≡ targets_fault entries.now 0 entries.now }
{
    for (position, entry) in entries.iter().enumerate() {
        let fault = target_fault(entries, position as u16, entry);
        if fault.is_some() {
            return fault;
        }
    }
    None
}

// Whether the help of an entry, where it has one, is shown as it is.
fn has_help(entry: &Entry) -> bool
    ensures { result ≡ has_help entry.now }
{
    match &entry.help {
        Some(help) => is_shown(help.as_bytes()),
        None => true,
    }
}

// The first fault of the helps.
fn helps_fault(entries: &[Entry]) -> Option<TableFault>
    requires { length entries.now ≤ ENTRY_LIMIT }
    ensures { result ≡ helps_fault 0 entries.now }
{
    for (position, entry) in entries.iter().enumerate() {
        if !has_help(entry) {
            return Some(TableFault::BadHelp(position as u16));
        }
    }
    None
}

#[tactic(auto, unfolding(crate::specs::Order::table_fault))]
pub(crate) fn table_fault(entries: &[Entry]) -> Option<TableFault>
    ensures first { result ≡ table_fault entries.now }
    ensures few { IfNone result (length entries.now ≤ ENTRY_LIMIT) }
{
    if entries.len() > ENTRY_LIMIT {
        return Some(TableFault::TooMany);
    }
    texts_fault(entries)
        .or_else(|| targets_fault(entries))
        .or_else(|| helps_fault(entries))
}
