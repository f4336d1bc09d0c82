// Files that are deleted, undeleted, read, expunged and looked for.

use super::forms::has;
use super::places::place;
use crate::cases::first_word;
use cm_fields::Gen;
use cm_text::Name;
use ex_store::{FullName, Key, MOMENT_LIMIT, RETENTION_LIMIT, Store};
use std::alloc::AllocError;
use std::process::Abort;

/// Marks the files of a place, or clears their marks.
pub(super) fn remark(rt: &impl Abort, store: &mut Store, files: &str, deleted: bool) -> u32 {
    let files = place(rt, files);
    assert!(rt;
        has(store, files.directory.as_str()),
        "there is no such directory"
    );
    if deleted {
        store.mark(&files)
    } else {
        store.unmark(&files)
    }
}

/// Sets how many generations the files of a place keep: the place, and how many.
pub(super) fn set_keep(rt: &impl Abort, store: &mut Store, words: &str) -> u32 {
    let (files, keep) = first_word(words);
    let keep: u8 = keep.parse().expect(rt, "how many are kept");
    assert!(rt; keep <= RETENTION_LIMIT);
    store.set_keep(&place(rt, files), keep)
}

/// Sets when the files of a place were last read: the place, and the moment.
pub(super) fn touch(rt: &impl Abort, store: &mut Store, words: &str) -> u32 {
    let (files, moment) = first_word(words);
    let moment: u64 = moment.parse().expect(rt, "a moment");
    assert!(rt; moment <= MOMENT_LIMIT);
    store.touch(&place(rt, files), moment)
}

/// Expunges a directory.
pub(super) fn expunge(rt: &impl Abort, store: &mut Store, directory: &str) -> u32 {
    assert!(rt; has(store, directory), "there is no such directory");
    store.expunge(directory)
}

/// The next that a place means: the place, `live` or `deleted`, and from which on.
pub(super) fn select(rt: &impl Abort, store: &Store, words: &str) -> Option<u32> {
    let (files, more) = first_word(words);
    let (mark, from) = first_word(more);
    let files = place(rt, files);
    assert!(rt;
        has(store, files.directory.as_str()),
        "there is no such directory"
    );
    store.select(
        &files,
        mark == "deleted",
        from.parse().expect(rt, "a number"),
    )
}

/// Connects to a directory.
pub(super) fn connect(rt: &impl Abort, store: &mut Store, directory: &str) {
    assert!(rt; has(store, directory), "there is no such directory");
    store.connect(directory);
}

/// Whether there is a file of a full name, and whether it is marked as deleted.
pub(super) fn put_found(
    rt: &impl Abort,
    store: &Store,
    files: &str,
    told: &mut String,
) -> Result<(), AllocError> {
    let at = place(rt, files);
    let full = FullName {
        key: Key {
            directory: at.directory,
            name: at.name.unwrap_or(Name::new("")),
            kind: at.kind.unwrap_or(Name::new("")),
        },
        generation: match at.generation {
            Gen::Number(number) => number,
            _ => 0,
        },
    };
    told.push_str(match store.find(&full, &mut 0) {
        Some(file) if file.deleted => "marked",
        Some(_) => "there",
        None => "none",
    })
}
