// What a record adds to a draft.
ghost use Rattle.std.specs.Prelude.{◌≡◌, true, OnErr, OnOk, option_map, pos};
ghost use Rattle.ex_image.specs.Reading.{is_in_range, is_there, with_entry};
ghost use Rattle.ex_image.specs.LineViews.{entry_said, request_said};
ghost use Rattle.ex_store.specs.Views.{queue_entry};
ghost use Rattle.ex_store.specs.WellFormed.{IsDraft, is_day};

use crate::entry::{Entry, FileEntry, RequestEntry};
use cm_io::NoMemory;
use ex_generations::{Bytes, File};
use ex_store::{Draft, Queued};
use std::alloc::Global;

// A day as a draft takes it.
fn day_of(after: Option<u64>) -> Option<i32>
    requires { is_day (option_map pos after) ≡ true }
    ensures { result ≡ option_map pos after }
{
    match after {
        Some(day) => Some(day as i32),
        None => None,
    }
}

// An entry of the print queue as a draft takes it.
fn queued<'a>(it: &RequestEntry<'a>) -> Queued<'a>
    requires { is_in_range (entry_said (Entry.Request it.now)) ≡ true }
    ensures { queue_entry result ≡ request_said it.now }
{
    Queued {
        directory: it.file.directory,
        name: it.file.name,
        kind: it.file.kind,
        generation: it.file.generation as u32,
        copies: it.copies as u8,
        form: it.form,
        after: day_of(it.after),
        job: it.job,
        note: it.note,
    }
}

// Adds a file.
fn add_file(
    draft: &mut Draft,
    alloc: Global,
    it: &FileEntry<'_>,
    content: &[u8],
) -> Result<(), NoMemory>
    requires in_range { is_in_range (entry_said (Entry.File it.now)) ≡ true }
    requires fits { IsDraft (with_entry draft.old (entry_said (Entry.File it.now)) content.now) }
    ensures added { OnOk result
        (draft.new ≡ with_entry draft.old (entry_said (Entry.File it.now)) content.now) }
    ensures refused { OnErr result (draft.new ≡ draft.old) }
{
    let bytes = Bytes::new(Vec::from_slice(alloc, content)?);
    let file = File {
        generation: it.file.generation as u32,
        deleted: it.deleted,
        keep: it.stamp.keep as u8,
        moment: it.stamp.moment,
        read: it.stamp.read,
        bytes,
    };
    draft.file(it.file.directory, it.file.name, it.file.kind, file)
}

/// Adds what a record says, and the bytes after its line.
pub(crate) fn add(
    draft: &mut Draft,
    alloc: Global,
    entry: &Entry<'_>,
    content: &[u8],
) -> Result<(), NoMemory>
    requires in_range { is_in_range (entry_said entry.now) ≡ true }
    requires there { is_there draft.old (entry_said entry.now) ≡ true }
    requires fits { IsDraft (with_entry draft.old (entry_said entry.now) content.now) }
    ensures added { OnOk result (draft.new ≡ with_entry draft.old (entry_said entry.now) content.now) }
    ensures refused { OnErr result (draft.new ≡ draft.old) }
{
    match entry {
        Entry::Head(_) => Ok(()),
        Entry::Directory { name, retention } => draft.directory(name, *retention as u8),
        Entry::Connected { name } => {
            draft.connect(name);
            Ok(())
        }
        Entry::Logical { name, directory } => draft.logical(name, directory),
        Entry::File(it) => add_file(draft, alloc, it, content),
        Entry::Request(it) => draft.request(queued(it)),
        Entry::End => Ok(()),
    }
}
