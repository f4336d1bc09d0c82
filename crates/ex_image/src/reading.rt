// The records of an image, one after the other.
ghost use Rattle.std.specs.Prelude.{◌≡◌, ◌==◌, ◌&&◌, true, OnErr, OnOk, length};
ghost use Rattle.ex_image.specs.Gives.{Gives};
ghost use Rattle.ex_image.specs.Grammar.{MayStand, state_in};
ghost use Rattle.ex_image.specs.Reading.{after, is_ended, record_after, record_at, standing, start, version_after, with_record};
ghost use Rattle.ex_image.specs.LineViews.{entry_said, next_said};
ghost use Rattle.ex_store.specs.State.{has_directory};
ghost use Rattle.ex_store.specs.WellFormed.{IsDraft};

use crate::Kind;
use crate::adding::add;
use crate::entries::entry_of;
use crate::entry::Entry;
use crate::faults::fault_of;
use crate::fields::{content_at, cut};
use crate::tag::Tag;
use crate::version::Version;
use cm_io::NoMemory;
use ex_store::{Draft, Store};
use std::alloc::Global;
use std::marker::Model;

/// A record that was read: what its line says, the bytes after the line, and what follows.
#[derive(Clone, Copy)]
pub(crate) struct Next<'a> {
    pub(crate) entry: Entry<'a>,
    pub(crate) content: &'a [u8],
    pub(crate) after: &'a [u8],
}

/// What was read so far. Contracts see in which version the image is, which record was read last, and the state that
/// those so far make.
#[derive(Drop)]
pub(crate) struct Reading {
    draft: Draft,
    version: Version,
    last: Tag,
    // How many bytes the files have together.
    bytes: usize,
}

impl Model for Reading {
    ghost use Rattle.std.specs.Prelude.{◌≡◌};
    ghost use Rattle.ex_image.specs.Reading as readings;
    ghost use Rattle.ex_store.specs.Rows.{total};

    ghost Value = { readings.Reading };

    ghost view = { λ it. record { version = it.version; last = it.last; state = it.draft } };

    ghost invariant = { λ it. it.bytes ≡ total it.draft.rows };
}

// A line that may be after a record of an image of this version.
#[tactic(auto, unfolding(crate::specs::Reading::standing))]
fn standing(version: Version, last: Tag, line: &[u8]) -> Result<Entry<'_>, Kind>
    ensures { Gives entry_said result (standing version last line.now) }
{
    let entry = entry_of(version, line)?;
    if last.may_precede(entry.tag()) {
        Ok(entry)
    } else {
        Err(Kind::Form)
    }
}

// The bytes after a line, and what follows.
fn after<'a>(entry: &Entry<'_>, bytes: &'a [u8]) -> Result<(&'a [u8], &'a [u8]), Kind>
    ensures { Gives (λ x. (x.0.now, x.1.now)) result (after (entry_said entry.now) bytes.now) }
{
    match entry {
        Entry::File(it) => content_at(it.size, bytes),
        _ => Ok((&[], bytes)),
    }
}

// In which version an image is, after a record.
fn version_after(version: Version, entry: &Entry<'_>) -> Version
    ensures { result ≡ version_after version (entry_said entry.now) }
{
    match entry {
        Entry::Head(told) => *told,
        _ => version,
    }
}

impl Reading {
    /// Nothing is read yet.
    pub(crate) fn new(alloc: Global) -> Reading
        ensures { result ≡ start }
    {
        Reading {
            draft: Draft::new(alloc),
            version: Version::Two,
            last: Tag::Start,
            bytes: 0,
        }
    }

    /// Whether what was read is a whole image, and nothing is left.
    pub(crate) fn is_complete(&self, rest: &[u8]) -> bool
        ensures { result ≡ is_ended self.now.last && length rest.now == 0 }
    {
        self.last.is_ended() && rest.is_empty()
    }

    // The next record, where one may follow.
    #[tactic(auto, unfolding(crate::specs::Reading::record_after))]
    fn record_after<'a>(&self, bytes: &'a [u8]) -> Result<Next<'a>, Kind>
        ensures { Gives next_said result (record_after self.now bytes.now) }
    {
        let (line, rest) = cut(bytes, b'\n', Kind::Cut)?;
        let entry = standing(self.version, self.last, line)?;
        let (content, after) = after(&entry, rest)?;
        match fault_of(&self.draft.parts(), self.bytes, &entry) {
            Some(kind) => Err(kind),
            None => Ok(Next {
                entry,
                content,
                after,
            }),
        }
    }

    /// The next record, or the kind of its fault.
    #[tactic(auto, unfolding(crate::specs::Reading::record_at))]
    pub(crate) fn record_at<'a>(&self, bytes: &'a [u8]) -> Result<Next<'a>, Kind>
        ensures { Gives next_said result (record_at self.now bytes.now) }
    {
        if self.last.is_ended() {
            return Err(Kind::Form);
        }
        self.record_after(bytes)
    }

    /// Adds a record. After NoMemory all is as before.
    pub(crate) fn add(&mut self, alloc: Global, next: &Next<'_>) -> Result<(), NoMemory>
        requires stands { MayStand self.old (next_said next.now).0 }
        requires fits { IsDraft (with_record self.old (next_said next.now).0).state }
        ensures added { OnOk result (self.new ≡ with_record self.old (next_said next.now).0) }
        ensures refused { OnErr result (self.new ≡ self.old) }
    {
        add(&mut self.draft, alloc, &next.entry, next.content)?;
        self.bytes += next.content.len();
        self.version = version_after(self.version, &next.entry);
        self.last = next.entry.tag();
        Ok(())
    }

    /// Makes of what the records say the state of the image: in version 1 each file keeps as many generations as its
    /// directory.
    #[tactic(auto, using(crate::proofs::KeptLaws::kept_total))]
    pub(crate) fn migrate(&mut self)
        ensures { self.new ≡ record self.old { state = state_in self.old.version self.old.state } }
    {
        match self.version {
            Version::One => self.draft.keep_by_directories(),
            Version::Two => {}
        }
    }

    /// The store, once a directory is connected.
    pub(crate) fn done(self) -> Store
        requires { has_directory self.state.connected self.state.directories ≡ true }
        ensures { result.state ≡ self.state }
    {
        self.draft.done()
    }
}
