// The files of a store, and the pairs of a plan, as texts.

use ex_store::{Full, Place, Ready, RowView, Store};
use std::alloc::AllocError;

// A space, after what was listed before.
fn put_space(list: &mut String, is_first: &mut bool) -> Result<(), AllocError> {
    if *is_first {
        *is_first = false;
        return Ok(());
    }
    list.push(' ')
}

fn put_end(list: &mut String, is_empty: bool) -> Result<(), AllocError> {
    if is_empty {
        list.push_str("none")
    } else {
        Ok(())
    }
}

// A file's full name, with a minus where it is marked as deleted.
fn put_row(list: &mut String, row: RowView<'_>) -> Result<(), AllocError> {
    let name = row.name.as_str();
    let kind = row.kind.as_str();
    let generation = row.file.generation;
    write!(list, "{name}.{kind}.{generation}")?;
    list.push_str(if row.file.deleted { "-" } else { "" })
}

/// The files of a directory, with a space between.
pub(super) fn put_names(
    list: &mut String,
    store: &Store,
    directory: &str,
) -> Result<(), AllocError> {
    let mut is_first = true;
    let parts = store.parts();
    for i in 0..parts.rows() {
        let row = parts.row(i);
        if row.directory.as_str() == directory {
            put_space(list, &mut is_first)?;
            put_row(list, row)?;
        }
    }
    put_end(list, is_first)
}

/// The files that a place means, with this mark, with a space between.
pub(super) fn put_selection(
    list: &mut String,
    store: &Store,
    files: &Place,
    deleted: bool,
) -> Result<(), AllocError> {
    let mut is_first = true;
    for row in store.selection(files, deleted) {
        put_space(list, &mut is_first)?;
        put_row(list, row)?;
    }
    put_end(list, is_first)
}

// A file with its moment and its bytes.
fn put_whole(list: &mut String, row: RowView<'_>) -> Result<(), AllocError> {
    put_row(list, row)?;
    let moment = row.file.moment;
    write!(list, "@{moment}=")?;
    for byte in row.file.bytes.as_slice() {
        list.push(char::from(*byte))?;
    }
    Ok(())
}

/// All files with their moments and bytes, with a space between.
pub(super) fn put_contents(list: &mut String, store: &Store) -> Result<(), AllocError> {
    let mut is_first = true;
    let parts = store.parts();
    for i in 0..parts.rows() {
        put_space(list, &mut is_first)?;
        put_whole(list, parts.row(i))?;
    }
    put_end(list, is_first)
}

// A file with what it keeps, and when it was written and read.
fn put_stamp(list: &mut String, row: RowView<'_>) -> Result<(), AllocError> {
    put_row(list, row)?;
    let keep = row.file.keep;
    let moment = row.file.moment;
    write!(list, ":{keep}/{moment}/")?;
    match row.file.read {
        Some(read) => write!(list, "{read}"),
        None => list.push('-'),
    }
}

/// All files with what they keep and when they were written and read, with a space between.
pub(super) fn put_stamps(list: &mut String, store: &Store) -> Result<(), AllocError> {
    let mut is_first = true;
    let parts = store.parts();
    for i in 0..parts.rows() {
        put_space(list, &mut is_first)?;
        put_stamp(list, parts.row(i))?;
    }
    put_end(list, is_first)
}

/// How many bytes each file has, with a space between.
pub(super) fn put_sizes(list: &mut String, store: &Store) -> Result<(), AllocError> {
    let mut is_first = true;
    let parts = store.parts();
    for i in 0..parts.rows() {
        put_space(list, &mut is_first)?;
        let size = parts.row(i).file.bytes.len();
        write!(list, "{size}")?;
    }
    put_end(list, is_first)
}

fn put_full(list: &mut String, full: Full<'_>) -> Result<(), AllocError> {
    let directory = full.directory;
    let name = full.name;
    let kind = full.kind;
    let generation = full.generation;
    if directory != "OPERATOR" {
        write!(list, "<{directory}>")?;
    }
    write!(list, "{name}.{kind}.{generation}")
}

/// The pairs of what is ready, with a space between.
pub(super) fn put_pairs(list: &mut String, ready: &Ready) -> Result<(), AllocError> {
    let mut is_first = true;
    for i in 0..ready.pairs() {
        let pair = ready.pair(i);
        put_space(list, &mut is_first)?;
        put_full(list, pair.source)?;
        list.push_str("=>")?;
        put_full(list, pair.target)?;
    }
    put_end(list, is_first)
}
