// What a store tells of its directories, logical names, files and requests, as texts.

use crate::cases::first_word;
use cm_files::Names;
use ex_store::{Queued, Store};
use std::alloc::AllocError;
use std::process::Abort;

/// The directories with the numbers of their files, and the number of the connected one.
pub(super) fn put_catalogue<N: Names>(list: &mut String, names: &N) -> Result<(), AllocError> {
    for i in 0..names.directories() {
        let name = names.directory(i);
        let rows = names.rows(i);
        write!(list, "{name}={rows} ")?;
    }
    let connected = names.connected();
    write!(list, "connected={connected}")
}

/// The number of the directory that a logical name stands for.
pub(super) fn put_logical<N: Names>(
    list: &mut String,
    names: &N,
    name: &str,
) -> Result<(), AllocError> {
    let directory = names.logical(name.as_bytes());
    write!(list, "{directory:?}")
}

// A file of a catalogue's directory.
fn put_row<N: Names>(
    rt: &impl Abort,
    list: &mut String,
    names: &N,
    directory: u16,
    i: u32,
) -> Result<(), AllocError> {
    assert!(rt;
        directory < names.directories(),
        "there is no such directory"
    );
    assert!(rt; i < names.rows(directory), "there is no such file");
    let row = names.row(directory, i);
    let name = row.name;
    let kind = row.kind;
    let generation = row.generation;
    let mark = if row.deleted { "-" } else { "" };
    write!(list, "{name}.{kind}.{generation}{mark}")
}

// The moment and the bytes of a file.
fn put_held(
    rt: &impl Abort,
    list: &mut String,
    store: &Store,
    directory: u16,
    i: u32,
) -> Result<(), AllocError> {
    assert!(rt;
        directory < store.directories(),
        "there is no such directory"
    );
    assert!(rt; i < store.rows(directory), "there is no such file");
    let file = store.file(directory, i, &mut 0);
    let moment = file.moment;
    write!(list, "@{moment}=")?;
    for byte in file.bytes.as_slice() {
        list.push(char::from(*byte))?;
    }
    Ok(())
}

/// A file by the numbers of its directory and of itself: its name, its moment and its bytes.
pub(super) fn put_file(
    rt: &impl Abort,
    list: &mut String,
    store: &Store,
    place: &str,
) -> Result<(), AllocError> {
    let (directory, i) = first_word(place);
    let directory = directory.parse().expect(rt, "a directory's number");
    let i = i.parse().expect(rt, "a file's number");
    put_row(rt, list, store, directory, i)?;
    put_held(rt, list, store, directory, i)
}

/// How many generations each directory keeps.
pub(super) fn put_retention(list: &mut String, store: &Store) -> Result<(), AllocError> {
    for i in 0..store.directories() {
        if i > 0 {
            list.push(' ')?;
        }
        let retention = store.retention(i);
        write!(list, "{retention}")?;
    }
    Ok(())
}

/// The logical names with the numbers of their directories.
pub(super) fn put_logicals(list: &mut String, store: &Store) -> Result<(), AllocError> {
    let count = store.logicals();
    write!(list, "{count}")?;
    for i in 0..count {
        let found = store.logical_at(i);
        let name = found.name;
        let directory = found.directory;
        write!(list, " {name}={directory}")?;
    }
    Ok(())
}

/// The entries of the print queue.
pub(super) fn put_requests(list: &mut String, store: &Store) -> Result<(), AllocError> {
    let count = store.requests();
    write!(list, "{count}")?;
    for i in 0..count {
        let request = store.request(i);
        write!(list, " {request:?}")?;
    }
    Ok(())
}

// A day, or a minus for none.
fn put_day(list: &mut String, after: Option<i32>) -> Result<(), AllocError> {
    match after {
        Some(day) => write!(list, "{day}"),
        None => list.push('-'),
    }
}

fn put_entry(list: &mut String, entry: Queued<'_>) -> Result<(), AllocError> {
    let directory = entry.directory;
    let name = entry.name;
    let kind = entry.kind;
    let generation = entry.generation;
    write!(list, "<{directory}>{name}.{kind}.{generation}")?;
    let copies = entry.copies;
    let form = entry.form;
    write!(list, "/{copies}/{form}/")?;
    put_day(list, entry.after)?;
    let job = entry.job;
    let note = entry.note;
    write!(list, "/{job}/{note}")
}

/// The entries of the print queue, as they are asked for, with a space between.
pub(super) fn put_queue(list: &mut String, store: &Store) -> Result<(), AllocError> {
    for i in 0..store.requests() {
        if i > 0 {
            list.push(' ')?;
        }
        put_entry(list, store.request(i))?;
    }
    Ok(())
}
