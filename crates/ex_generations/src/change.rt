// Changes of the generations of a file.
ghost use Rattle.std.specs.Prelude.{◌≡◌, ◌<◌, ◌≤◌, ◌↔◌, true, false, IsErr, OnErr, length, get_or, insert, map, set, IfOk, Some, vec_capacity, vec_len, find};
ghost use Rattle.ex_generations.specs.declared.file.File.{File as Generation};
ghost use Rattle.ex_generations.specs.Generations.{IsAscending, blank, changed, has, inserted, is_generation, rewritten, unmarked, with_remark, without};
ghost use Rattle.ex_generations.specs.Retention.{kept_newest, retained};

use crate::search::{live, place, position};
use crate::{Bytes, FILE_LIMIT, File, GENERATION_LIMIT, NoGen, Remark};
use cm_io::NoMemory;
use std::alloc::Global;

// Puts a file at a place of a vector that has room for it.
fn put_at(files: &mut Vec<File>, at: usize, file: File)
    requires within { at ≤ length files.old.items }
    requires room { length files.old.items < vec_capacity files.old }
    ensures items { files.new.items ≡ insert files.old.items at file }
    ensures capacity { vec_capacity files.new ≡ vec_capacity files.old }
{
    match files.insert(at, file) {
        Ok(()) => {}
        Err(_) => unreachable!(),
    }
}

// Puts a file at its place, in a vector that has room for it.
pub(crate) fn insert(files: &mut Vec<File>, file: File)
    requires ascending { IsAscending 0 files.old.items }
    requires room { length files.old.items < vec_capacity files.old }
    requires short { length file.bytes ≤ FILE_LIMIT }
    requires from_one { 0 < file.generation }
    requires to_limit { file.generation ≤ GENERATION_LIMIT }
    requires absent { has file.generation files.old.items ≡ false }
    ensures items { files.new.items ≡ inserted file files.old.items }
    ensures ascending { IsAscending 0 files.new.items }
    ensures capacity { vec_capacity files.new ≡ vec_capacity files.old }
{
    let at = place(files, file.generation, &mut 0);
    put_at(files, at, file);
}

// Marks each file with at least so many unmarked ones above it.
pub(crate) fn keep_newest(files: &mut [File], keep: usize)
    requires { IsAscending 0 files.old }
    ensures kept { files.new ≡ kept_newest keep files.old }
    ensures ascending { IsAscending 0 files.new }
{
    let mut above = live(files);
    for file in files.iter_mut() {
        if !file.deleted {
            above -= 1;
        }
        if above >= keep {
            file.deleted = true;
        }
    }
}

// Keeps so many unmarked files, or all where the number is 0.
pub(crate) fn retain(files: &mut [File], keep: u8)
    requires { IsAscending 0 files.old }
    ensures retained { files.new ≡ retained keep files.old }
    ensures ascending { IsAscending 0 files.new }
{
    if keep > 0 {
        keep_newest(files, usize::from(keep));
    }
}

// Changes what a remark names.
fn apply(file: &mut File, remark: Remark)
    ensures { file.new ≡ with_remark remark file.old }
{
    match remark {
        Remark::Deleted(deleted) => file.deleted = deleted,
        Remark::Keep(keep) => file.keep = keep,
        Remark::Read(moment) => file.read = Some(moment),
    }
}

// Changes what a remark names, of the file of a generation.
pub(crate) fn remark(files: &mut [File], generation: u32, remark: Remark) -> Result<(), NoGen>
    requires { IsAscending 0 files.old }
    ensures none { IsErr result ↔ (has generation files.old ≡ false) }
    ensures changed { files.new ≡ changed generation (with_remark remark) files.old }
    ensures err { OnErr result (files.new ≡ files.old) }
    ensures ascending { IsAscending 0 files.new }
{
    match position(files, generation, &mut 0) {
        Some(at) => {
            apply(&mut files[at], remark);
            Ok(())
        }
        None => Err(NoGen),
    }
}

// The files without their bytes, and never read.
pub(crate) fn blanks(alloc: Global, files: &[File]) -> Result<Vec<File>, NoMemory>
    requires { IsAscending 0 files.now }
    ensures items { IfOk result (λ blanks. blanks.items ≡ map blank files.now) }
    ensures ascending { IfOk result (λ blanks. IsAscending 0 blanks.items) }
{
    let mut blanks = Vec::new(alloc);
    for file in files {
        blanks.push(File {
            generation: file.generation,
            deleted: file.deleted,
            keep: file.keep,
            moment: file.moment,
            read: None,
            bytes: Bytes::new(Vec::new(alloc)),
        })?;
    }
    Ok(blanks)
}

// Changes what a remark names, of the file at a place.
pub(crate) fn remark_at(files: &mut [File], i: usize, remark: Remark)
    requires ascending { IsAscending 0 files.old }
    requires within { i < length files.old }
    ensures set { (d : Generation) → files.new ≡ set files.old i (with_remark remark (get_or files.old i d)) }
    ensures ascending { IsAscending 0 files.new }
{
    apply(&mut files[i], remark);
}

// Gives a file a moment and bytes.
fn fill(file: &mut File, moment: u64, bytes: Bytes)
    ensures { file.new ≡ rewritten moment bytes file.old }
{
    file.moment = moment;
    file.bytes = bytes;
}

// Gives the file of a generation a moment and bytes.
pub(crate) fn rewrite(files: &mut [File], generation: u32, moment: u64, bytes: Bytes)
    requires ascending { IsAscending 0 files.old }
    requires there { has generation files.old ≡ true }
    requires short { length bytes ≤ FILE_LIMIT }
    ensures changed { files.new ≡ changed generation (rewritten moment bytes) files.old }
    ensures ascending { IsAscending 0 files.new }
{
    match position(files, generation, &mut 0) {
        Some(at) => fill(&mut files[at], moment, bytes),
        None => unreachable!(),
    }
}

// Takes the file of a generation out.
pub(crate) fn take(files: &mut Vec<File>, generation: u32) -> File
    requires ascending { IsAscending 0 files.old.items }
    requires there { has generation files.old.items ≡ true }
    ensures file { find (is_generation generation) files.old.items ≡ Some result }
    ensures items { files.new.items ≡ without generation files.old.items }
    ensures ascending { IsAscending 0 files.new.items }
    ensures capacity { vec_capacity files.new ≡ vec_capacity files.old }
{
    match position(files, generation, &mut 0) {
        Some(at) => files.remove(at),
        None => unreachable!(),
    }
}

// Drops the files that are marked.
pub(crate) fn drop_marked(files: &mut Vec<File>)
    requires { IsAscending 0 files.old.items }
    ensures items { files.new.items ≡ unmarked files.old.items }
    ensures ascending { IsAscending 0 files.new.items }
    ensures capacity { vec_capacity files.new ≡ vec_capacity files.old }
{
    files.retain(|file| !file.deleted);
}
