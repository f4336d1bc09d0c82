// What is done with the generations of a file, as a text: the generations that there are first, a minus after each
// that is marked as deleted, and then the steps.

use super::files::{file, put_all, put_numbers, put_whole};
use crate::cases::{first_word, halves, is_told};
use ex_generations::{Bytes, FILE_LIMIT, GENERATION_LIMIT, Gens, NoGen};
use std::alloc::AllocError;
use std::process::Abort;

// Adds a file of this many bytes that keeps so many.
fn add(rt: &(impl Abort + AllocGlobal), gens: &mut Gens, generation: u32, keep: u8, size: usize) {
    assert!(rt; generation > 0 && generation <= GENERATION_LIMIT && size <= FILE_LIMIT);
    assert!(rt; !gens.has(generation), "{generation} is there");
    let file = file(rt.alloc(), generation, keep, size).expect(rt, "memory");
    gens.reserve(1).expect(rt, "memory");
    gens.add(file);
}

// Puts an empty file, marked as deleted, that keeps so many among the others.
fn insert(rt: &(impl Abort + AllocGlobal), gens: &mut Gens, generation: u32, keep: &str) {
    assert!(rt; generation > 0 && generation <= GENERATION_LIMIT);
    assert!(rt; !gens.has(generation), "{generation} is there");
    let keep = keep.parse().expect(rt, "how many are kept");
    let mut file = file(rt.alloc(), generation, keep, 0).expect(rt, "memory");
    file.deleted = true;
    gens.reserve(1).expect(rt, "memory");
    gens.insert(file);
}

// How many a file keeps from now on.
fn set_keep(rt: &impl Abort, gens: &mut Gens, generation: u32, keep: &str) -> Result<(), NoGen> {
    gens.set_keep(generation, keep.parse().expect(rt, "how many are kept"))
}

// When a file is read.
fn touch(rt: &impl Abort, gens: &mut Gens, generation: u32, moment: &str) -> Result<(), NoGen> {
    gens.touch(generation, moment.parse().expect(rt, "a moment"))
}

// Adds an empty file, and marks it where a minus is after its generation.
fn add_marked(rt: &(impl Abort + AllocGlobal), gens: &mut Gens, text: &str) {
    let generation = text
        .trim_end_matches('-')
        .parse()
        .expect(rt, "a generation");
    add(rt, gens, generation, 0, 0);
    if text.ends_with('-') {
        gens.mark(generation).expect(rt, "a generation");
    }
}

fn add_more(rt: &(impl Abort + AllocGlobal), gens: &mut Gens, generation: u32, more: &str) {
    let (keep, size) = first_word(more);
    let keep = keep.parse().expect(rt, "how many are kept");
    add(rt, gens, generation, keep, size.parse().unwrap_or(0));
}

fn replace(rt: &(impl Abort + AllocGlobal), gens: &mut Gens, generation: u32, more: &str) {
    let (moment, text) = first_word(more);
    let moment = moment.parse().expect(rt, "a moment");
    let bytes = Vec::from_slice(rt.alloc(), text.as_bytes()).expect(rt, "memory");
    assert!(rt; bytes.len() <= FILE_LIMIT);
    assert!(rt; gens.has(generation), "{generation} is not there");
    gens.replace(generation, moment, Bytes::new(bytes));
}

fn remove(
    rt: &impl Abort,
    gens: &mut Gens,
    generation: u32,
    told: &mut String,
) -> Result<(), AllocError> {
    assert!(rt; gens.has(generation), "{generation} is not there");
    let file = gens.remove(generation);
    put_whole(told, &file)
}

// The lowest and the highest unmarked generation, and the same of those that are marked.
fn put_ends(told: &mut String, gens: &Gens) -> Result<(), AllocError> {
    let lowest = gens.lowest(false);
    let highest = gens.highest(false);
    write!(told, "{lowest:?} {highest:?}")?;
    let lowest = gens.lowest(true);
    let highest = gens.highest(true);
    write!(told, " {lowest:?} {highest:?}")
}

// Each file of a blank of the generations.
fn put_blank(
    rt: &(impl Abort + AllocGlobal),
    gens: &Gens,
    told: &mut String,
) -> Result<(), AllocError> {
    let blank = gens.blank(rt.alloc()).expect(rt, "memory");
    put_all(told, &blank)
}

// What comes of a step that names a generation, or a number.
fn put_change(
    rt: &(impl Abort + AllocGlobal),
    gens: &mut Gens,
    verb: &str,
    rest: &str,
    told: &mut String,
) -> Result<(), AllocError> {
    let (number, more) = first_word(rest);
    let number = number.parse().expect(rt, "a number");
    match verb {
        "add" => add_more(rt, gens, number, more),
        "replace" => replace(rt, gens, number, more),
        "insert" => insert(rt, gens, number, more),
        "set_keep" => return write!(told, "{:?}", set_keep(rt, gens, number, more)),
        "touch" => return write!(told, "{:?}", touch(rt, gens, number, more)),
        "keep_for" => return write!(told, "{}", gens.keep_for(number.min(63) as u8)),
        "mark" => return write!(told, "{:?}", gens.mark(number)),
        "unmark" => return write!(told, "{:?}", gens.unmark(number)),
        "remove" => return remove(rt, gens, number, told),
        "reserve" => return write!(told, "{:?}", gens.reserve(number as usize)),
        _ => gens.retain_newest(number.min(63) as u8),
    }
    put_numbers(told, gens)
}

fn put_step(
    rt: &(impl Abort + AllocGlobal),
    gens: &mut Gens,
    step: &str,
    told: &mut String,
) -> Result<(), AllocError> {
    let (verb, rest) = first_word(step);
    match verb {
        "files" => put_numbers(told, gens),
        "all" => put_all(told, gens),
        "next" => write!(told, "{:?}", gens.next()),
        "ends" => put_ends(told, gens),
        "blank" => put_blank(rt, gens, told),
        "expunge" => write!(told, "{}", gens.expunge()),
        _ => put_change(rt, gens, verb, rest, told),
    }
}

// Does the steps, and tells what comes of each.
fn told(
    rt: &(impl Abort + AllocGlobal),
    gens: &mut Gens,
    steps: &str,
) -> Result<String, AllocError> {
    let mut told = String::new(rt.alloc());
    for step in steps.split("; ") {
        if !told.is_empty() {
            told.push_str("; ")?;
        }
        put_step(rt, gens, step, &mut told)?;
    }
    Ok(told)
}

fn made(rt: &(impl Abort + AllocGlobal), marks: &str) -> Gens {
    let mut gens = Gens::new(rt.alloc());
    for text in marks.split_whitespace() {
        add_marked(rt, &mut gens, text);
    }
    gens
}

/// Empty files of so many generations: 2, 4, 6 and so on.
pub(super) fn even(rt: &(impl Abort + AllocGlobal), count: u32) -> Gens {
    let mut gens = Gens::new(rt.alloc());
    for number in 0..count {
        add(
            rt,
            &mut gens,
            number.saturating_add(1).saturating_mul(2),
            0,
            0,
        );
    }
    gens
}

/// A case tells what is wanted of it.
pub(super) fn tells(rt: &(impl Abort + AllocGlobal), case: &str) {
    let (done, wanted) = halves(rt, case);
    let (marks, steps) = done.split_once("; ").expect(rt, "steps");
    let mut gens = made(rt, marks);
    let told = told(rt, &mut gens, steps).expect(rt, "memory");
    is_told(rt, &told, wanted, case);
}

/// The same of each line.
pub(super) fn each_afresh(rt: &(impl Abort + AllocGlobal), cases: &str) {
    for case in cases.lines() {
        tells(rt, case);
    }
}
