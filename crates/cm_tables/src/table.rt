// Keyword tables.
ghost use Rattle.std.specs.Prelude.{◌≡◌, ◌+◌, ◌-◌, ◌*◌, ◌^◌, ◌<◌, ◌≤◌, List, length, Some, None, IfSome, MatchResult, slice_get, vec_len};
ghost use Rattle.cm_tables.specs.Common.{common};
ghost use Rattle.cm_tables.specs.Listing.{next_listed};
ghost use Rattle.cm_tables.specs.Look.{IsWithin, has_text, look};
ghost use Rattle.cm_tables.specs.Order.{table_fault};
ghost use Rattle.cm_tables.specs.Search.{wholes};

use crate::fault::{ENTRY_LIMIT, table_fault};
use crate::{Entry, common, listed, search};
use cm_text::{NAME_LIMIT, Name};
use std::marker::Model;
use thiserror::Error;

/// Why a list of entries is no table. The number is the position of the entry at fault, from 0.
#[derive(Debug, PartialEq, Eq, Drop, Error)]
pub enum TableFault {
    /// There are more than 1,024 entries.
    #[error("TooMany")]
    TooMany,
    /// The text is empty, or has a byte that is no letter, digit or hyphen.
    #[error("BadText")]
    BadText(u16),
    /// The text is that of the entry before it, with no regard to the case of letters.
    #[error("Repeat")]
    Repeat(u16),
    /// The text is below that of the entry before it, with no regard to the case of letters.
    #[error("Order")]
    Order(u16),
    /// A Short entry stands for no entry that may be abbreviated and whose text begins with its own.
    #[error("BadTarget")]
    BadTarget(u16),
    /// The help has a byte that is no printing one or is `?`.
    #[error("BadHelp")]
    BadHelp(u16),
}

/// What a look-up found.
#[derive(Clone, Copy, Debug, PartialEq, Eq)]
pub enum Look {
    /// No entry.
    None,
    /// More than one entry, or one that does not let itself be recognised.
    Ambiguous,
    /// The one entry that the atom abbreviates, by its position.
    Abbrev(u16),
    /// The entry whose text the atom is, or the one that this stands for, by its position.
    Exact(u16),
}

/// A keyword table: at most 1,024 entries, their texts in ascending order, with no
/// regard to the case of letters. Contracts see its entries.
#[derive(Debug, Drop)]
pub struct Table {
    entries: Vec<Entry>,
}

impl Model for Table {
    ghost use Rattle.std.specs.Prelude.{◌≡◌, ◌≤◌, List, None, vec_len};
    ghost use Rattle.cm_tables.specs.declared.entry.Entry.{Entry};
    ghost use Rattle.cm_tables.specs.declared.fault.TheConstants.{ENTRY_LIMIT};
    ghost use Rattle.cm_tables.specs.Order.{table_fault};

    ghost Value = { List Entry };

    ghost view = { λ table. table.entries.items };

    ghost invariant = { λ table. (vec_len table.entries ≤ ENTRY_LIMIT)
        × (table_fault table.entries.items ≡ None) };
}

impl Table {
    /// The table with these entries, or the first fault: their number, then their texts in order, then
    /// the targets of the Short entries in order, then the helps in order.
    pub fn new(entries: Vec<Entry>) -> Result<Table, TableFault>
        ensures { MatchResult result
            (λ table. (table_fault entries.items ≡ None) × (table ≡ entries.items))
            (λ fault. table_fault entries.items ≡ Some fault) }
    {
        match table_fault(&entries) {
            Some(fault) => Err(fault),
            None => Ok(Table { entries }),
        }
    }

    /// The table with entries that are known to have no fault, as a program's own are, whose proof computes that.
    pub fn of(entries: Vec<Entry>) -> Table
        requires { table_fault entries.items ≡ None }
        ensures { result ≡ entries.items }
    {
        Table::new(entries).unwrap()
    }

    /// Hands what `new` saw to on to a proof: the table has no fault. It does nothing.
    pub fn has_no_fault(&self)
        ensures { table_fault self.now ≡ None }
    {
        let _ = &self.entries;
    }

    /// The entry at a position.
    pub fn entry(&self, position: u16) -> &Entry
        requires { position < length self.now }
        ensures { slice_get self.now position ≡ Some result.now }
    {
        &self.entries[usize::from(position)]
    }

    /// How many entries there are.
    pub fn len(&self) -> u16
        ensures value { result ≡ length self.now }
        ensures most { result ≤ ENTRY_LIMIT }
    {
        self.entries.len() as u16
    }

    /// The entries in order.
    pub fn entries(&self) -> &[Entry]
        ensures { result.now ≡ self.now }
    {
        &self.entries
    }

    /// What the table has for an atom.
    pub fn look(&self, atom: &[u8]) -> Look
        // [abbreviation]
        ensures value { result ≡ look self.now atom.now }
        // A position that it gives is one of the table.
        ensures within { IsWithin result (length self.now) }
    {
        let mut probes = 0;
        let mut reads = 0;
        self.look_counted(atom, &mut probes, &mut reads)
    }

    /// The same, and how many entries are looked at: those of the one search by halving are added to `probes`, and
    /// those read where it ends to `reads`. An entry whose text is the atom is the first that is read; of those that
    /// begin with the atom as many are read as decide.
    #[tactic(auto, using(crate::proofs::StartLaws::ascends_of, crate::proofs::WithinLemmas::answer_within))]
    pub fn look_counted(&self, atom: &[u8], probes: &mut u64, reads: &mut u64) -> Look
        ensures value { result ≡ look self.now atom.now }
        ensures within { IsWithin result (length self.now) }
        // [look-up-cost] As many as the number of entries has binary digits.
        ensures few { 2 ^ (probes.new - probes.old) ≤ 2 * length self.now + 1 }
        // At most three more than there are entries that begin with the atom and may not be abbreviated.
        ensures near { reads.new ≤ reads.old + (length (wholes self.now atom.now) + 3) }
    {
        search::look(&self.entries, atom, probes, reads)
    }

    /// Whether the text of some entry is the atom, with no regard to the case of letters. Where an atom is ambiguous,
    /// it tells whether an entry of this text does not let itself be recognised, or several entries begin with it.
    #[tactic(auto, using(crate::proofs::StartLaws::ascends_of))]
    pub fn has_text(&self, atom: &[u8]) -> bool
        ensures { result ≡ has_text self.now atom.now }
    {
        search::has_text(&self.entries, atom)
    }

    /// The longest text with which all entries go on after the atom that it may abbreviate, so that it can be
    /// completed as far as it is certain (COMND's recognition). They go on alike with no regard to the case of letters;
    /// the text is as the first of them has it. It is empty where there is no such entry.
    #[tactic(auto, using(crate::proofs::StartLaws::ascends_of))]
    pub fn common(&self, atom: &[u8]) -> Name
        ensures value { result ≡ common self.now atom.now }
        ensures within { length result ≤ NAME_LIMIT }
    {
        common::common(&self.entries, atom)
    }

    /// The position of the first entry at or after a position that a list shows where the atom was typed, as `?` wants
    /// it (TBLUK): a Plain entry that begins with the atom, with no regard to the case of letters. None where there is
    /// no more such entry, as from a position past the end.
    #[tactic(auto, using(crate::proofs::StartLaws::ascends_of))]
    pub fn next_listed(&self, from: u16, atom: &[u8]) -> Option<u16>
        ensures value { result ≡ next_listed self.now from atom.now }
        // It is a position of the table, and not before the one that was given.
        ensures within { IfSome result (λ position. (from ≤ position) × (position < length self.now)) }
        // A table has no more entries than it may.
        ensures few { length self.now ≤ ENTRY_LIMIT }
    {
        listed::next_listed(&self.entries, from, atom)
    }
}
