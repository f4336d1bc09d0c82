// The files of a store.
ghost use Rattle.std.specs.Prelude.{◌≡◌};
ghost use Rattle.ex_store.specs.Adding.{new_row};
ghost use Rattle.ex_store.specs.Views.{row_of_view};
ghost use Rattle.ex_store.specs.Rows.{blank, full_of, with_name};

use crate::key::copy_of;
use crate::{FullName, Key};
use cm_text::Name;
use ex_generations::{Bytes, File};
use std::alloc::Global;

/// A file of a store.
#[derive(Debug, Drop)]
pub struct Row {
    /// Its directory, name and type.
    pub key: Key,
    /// Its generation, its mark, how many generations it keeps, its moments and its bytes.
    pub file: File,
}

/// A file as a store tells it.
#[derive(Clone, Copy, Debug)]
pub struct RowView<'a> {
    /// The name of its directory.
    pub directory: &'a Name,
    /// Its name.
    pub name: &'a Name,
    /// Its type.
    pub kind: &'a Name,
    /// Its generation, its mark, how many generations it keeps, its moments and its bytes.
    pub file: &'a File,
}

impl Row {
    // A new file, unmarked, that keeps so many generations; nobody has read it.
    pub(crate) fn new(key: Key, keep: u8, generation: u32, moment: u64, bytes: Bytes) -> Row
        ensures { result ≡ new_row key keep moment bytes generation }
    {
        Row {
            key,
            file: File {
                generation,
                deleted: false,
                keep,
                moment,
                read: None,
                bytes,
            },
        }
    }

    // A file under another full name, unmarked.
    pub(crate) fn with_name(target: FullName, file: File) -> Row
        ensures { result ≡ with_name target file }
    {
        Row {
            key: target.key,
            file: File {
                generation: target.generation,
                deleted: false,
                keep: file.keep,
                moment: file.moment,
                read: file.read,
                bytes: file.bytes,
            },
        }
    }

    // The same without its bytes, as if nobody had read it.
    pub(crate) fn blank(&self, alloc: Global) -> Row
        ensures { result ≡ blank self.now }
    {
        Row {
            key: self.key.copy(),
            file: File {
                generation: self.file.generation,
                deleted: self.file.deleted,
                keep: self.file.keep,
                moment: self.file.moment,
                read: None,
                bytes: Bytes::new(Vec::new(alloc)),
            },
        }
    }

    // Its full name.
    pub(crate) fn full_name(&self) -> FullName
        ensures { result ≡ full_of self.now }
    {
        FullName {
            key: self.key.copy(),
            generation: self.file.generation,
        }
    }
}

impl<'a> RowView<'a> {
    // Its directory, name and type.
    pub(crate) fn key(self) -> Key
        ensures { result ≡ (row_of_view self.entry).key }
    {
        Key {
            directory: copy_of(self.directory),
            name: copy_of(self.name),
            kind: copy_of(self.kind),
        }
    }

    // Its full name.
    pub(crate) fn full_name(self) -> FullName
        ensures { result ≡ full_of (row_of_view self.entry) }
    {
        FullName {
            key: self.key(),
            generation: self.file.generation,
        }
    }
}
