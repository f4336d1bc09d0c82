// What is done with a store, as a text: steps with `; ` between.

use super::listing::{put_contents, put_names, put_selection, put_sizes, put_stamps};
use super::marks::{connect, expunge, put_found, remark, select, set_keep, touch};
use super::names::{
    put_catalogue, put_file, put_logical, put_logicals, put_queue, put_requests, put_retention,
};
use super::places::place;
use super::plans::{put_files, put_plan};
use crate::cases::{bytes_of, first_word, halves, is_told};
use cm_io::{MemHost, Put};
use ex_image::{decode, encode};
use ex_store::Store;
use std::alloc::AllocError;
use std::process::Abort;

// Bytes, with `|` for each line feed.
fn put_bytes(told: &mut String, bytes: &[u8]) -> Result<(), AllocError> {
    for byte in bytes {
        let shown = if *byte == b'\n' { b'|' } else { *byte };
        told.push(char::from(shown))?;
    }
    Ok(())
}

// The image of a store.
fn put_image(
    rt: &(impl Abort + AllocGlobal),
    told: &mut String,
    store: &Store,
) -> Result<(), AllocError> {
    let mut host = MemHost::new(rt.alloc(), "IN", None, 1_000, &[]).expect(rt, "memory");
    assert_eq!(rt; encode(store, &mut host, "OUT"), Put::Done);
    put_bytes(told, host.output().unwrap_or(b"none"))
}

// Lists what a place means: the place, and `live` or `deleted`.
fn put_list(
    rt: &impl Abort,
    told: &mut String,
    store: &Store,
    words: &str,
) -> Result<(), AllocError> {
    let (files, mark) = first_word(words);
    put_selection(told, store, &place(rt, files), mark == "deleted")
}

// What a store tells: its catalogue, and what each directory keeps; a logical name, or all; a file, or the names, the
// contents, the stamps or the sizes of all, or those that a place means; the print queue; what a directory keeps, and
// its pages; its image; whether there is a file; and the next file that a place means.
fn put_answer(
    rt: &(impl Abort + AllocGlobal),
    store: &Store,
    verb: &str,
    rest: &str,
    told: &mut String,
) -> Result<(), AllocError> {
    match verb {
        "catalogue" => put_catalogue(told, store),
        "retention" => put_retention(told, store),
        "logical" => put_logical(told, store, rest),
        "logicals" => put_logicals(told, store),
        "file" => put_file(rt, told, store, rest),
        "names" if rest.is_empty() => put_names(told, store, "OPERATOR"),
        "names" => put_names(told, store, rest),
        "list" => put_list(rt, told, store, rest),
        "contents" => put_contents(told, store),
        "stamps" => put_stamps(told, store),
        "sizes" => put_sizes(told, store),
        "count" => write!(told, "{}", store.parts().rows()),
        "requests" => put_requests(told, store),
        "entries" => write!(told, "{}", store.requests()),
        "queue" => put_queue(told, store),
        "kept" => write!(told, "{}", store.retention_in(rest)),
        "pages" => write!(told, "{}", store.pages_in(rest)),
        "image" => put_image(rt, told, store),
        "find" => put_found(rt, store, rest, told),
        _ => write!(told, "{:?}", select(rt, store, rest)),
    }
}

// What comes of a step.
fn put_step(
    rt: &(impl Abort + AllocGlobal),
    store: &mut Store,
    step: &str,
    told: &mut String,
) -> Result<(), AllocError> {
    let (verb, rest) = first_word(step);
    match verb {
        "build" | "define" | "write" | "put" | "copy" | "rename" | "append" | "print" => {
            put_plan(rt, store, verb, rest, told)
        }
        "files" => put_files(rt, store, rest, told),
        "mark" => write!(told, "{}", remark(rt, store, rest, true)),
        "unmark" => write!(told, "{}", remark(rt, store, rest, false)),
        "keep" => write!(told, "{}", set_keep(rt, store, rest)),
        "touch" => write!(told, "{}", touch(rt, store, rest)),
        "expunge" => write!(told, "{}", expunge(rt, store, rest)),
        "undefine" => write!(told, "{:?}", store.undefine(rest)),
        "connect" => {
            connect(rt, store, rest);
            put_catalogue(told, store)
        }
        _ => put_answer(rt, store, verb, rest, told),
    }
}

/// Does the steps, and tells what comes of each.
pub(super) fn told(
    rt: &(impl Abort + AllocGlobal),
    store: &mut Store,
    steps: &str,
) -> Result<String, AllocError> {
    let mut told = String::new(rt.alloc());
    for step in steps.split("; ") {
        if !told.is_empty() {
            told.push_str("; ")?;
        }
        put_step(rt, store, step, &mut told)?;
    }
    Ok(told)
}

// A case tells what is wanted of it.
fn tells(rt: &(impl Abort + AllocGlobal), store: &mut Store, case: &str) {
    let (steps, wanted) = halves(rt, case);
    let told = told(rt, store, steps).expect(rt, "memory");
    is_told(rt, &told, wanted, case);
}

/// Each line tells what is wanted of it, one after the other.
pub(crate) fn in_turn(rt: &(impl Abort + AllocGlobal), store: &mut Store, cases: &str) {
    for case in cases.lines() {
        tells(rt, store, case);
    }
}

/// A new store, after some steps.
pub(crate) fn store_after(rt: &(impl Abort + AllocGlobal), steps: &str) -> Store {
    let mut store = Store::new(rt.alloc()).expect(rt, "memory");
    told(rt, &mut store, steps).expect(rt, "memory");
    store
}

fn tells_after(rt: &(impl Abort + AllocGlobal), steps: &str, case: &str) {
    let mut store = store_after(rt, steps);
    tells(rt, &mut store, case);
}

/// Each line tells what is wanted of it, with a new store after some steps.
pub(crate) fn each_after(rt: &(impl Abort + AllocGlobal), steps: &str, cases: &str) {
    for case in cases.lines() {
        tells_after(rt, steps, case);
    }
}

/// The store of an image, in which `|` stands for a line feed.
pub(crate) fn store_of(rt: &(impl Abort + AllocGlobal), image: &str) -> Store {
    let image = bytes_of(rt.alloc(), image).expect(rt, "memory");
    decode(rt.alloc(), &image).expect(rt, "an image")
}
