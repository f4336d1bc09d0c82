// Searches through the generations of a file. A generation is found by halving.
ghost use Rattle.std.specs.Prelude.{◌≡◌, ◌≤◌, ◌↔◌, ◌+◌, ◌-◌, ◌*◌, ◌^◌, false, find, length, option_copied, Some, IfOk, IsErr, position, nat_lt};
ghost use Rattle.std.specs.List.{prefix_len};
ghost use Rattle.ex_generations.specs.Generations.{IsAscending, has, highest, is_generation, lowest, marked, next_generation, page_count, pages, with_mark};
ghost use Rattle.ex_generations.specs.Retention.{keep_for, live};

use crate::{Bytes, FILE_LIMIT, File, GENERATION_LIMIT, GenFull, PAGE_BYTES};
use cm_text::seek;

// How many files are of a lower generation. How often a file is looked at is added to `probes`.
pub(crate) fn place(files: &[File], generation: u32, probes: &mut u64) -> usize
    requires { IsAscending 0 files.now }
    ensures place { result ≡ prefix_len (λ file. nat_lt file.generation generation) files.now }
    ensures later { probes.old ≤ probes.new }
    ensures few { 2 ^ (probes.new - probes.old) ≤ 2 * length files.now + 1 }
{
    seek(files, |file| file.generation < generation, probes)
}

// Where the file of a generation stands. How often a file is looked at is added to `probes`.
pub(crate) fn position(files: &[File], generation: u32, probes: &mut u64) -> Option<usize>
    requires { IsAscending 0 files.now }
    ensures place { result ≡ position (is_generation generation) files.now }
    ensures later { probes.old ≤ probes.new }
    ensures few { 2 ^ (probes.new - probes.old) ≤ 2 * length files.now + 1 }
{
    let at = place(files, generation, probes);
    match files.get(at) {
        Some(file) if file.generation == generation => Some(at),
        _ => None,
    }
}

// The file of a generation, where there is one.
pub(crate) fn find(files: &[File], generation: u32) -> Option<&File>
    requires { IsAscending 0 files.now }
    ensures { option_copied result ≡ find (is_generation generation) files.now }
{
    match position(files, generation, &mut 0) {
        Some(at) => Some(&files[at]),
        None => None,
    }
}

// Whether there is a file of a generation.
pub(crate) fn has(files: &[File], generation: u32) -> bool
    requires { IsAscending 0 files.now }
    ensures { result ≡ has generation files.now }
{
    position(files, generation, &mut 0).is_some()
}

// The highest generation with this mark.
pub(crate) fn highest(files: &[File], deleted: bool) -> Option<u32>
    requires { IsAscending 0 files.now }
    ensures { result ≡ highest (with_mark deleted files.now) }
{
    let mut highest = None;
    for file in files {
        if file.deleted == deleted {
            highest = Some(file.generation);
        }
    }
    highest
}

// The number above the highest generation, and 1 with no file.
pub(crate) fn next(files: &[File]) -> Result<u32, GenFull>
    requires { IsAscending 0 files.now }
    ensures next { IfOk result (λ next. next ≡ next_generation files.now) }
    ensures full { IsErr result ↔ (highest files.now ≡ Some GENERATION_LIMIT) }
    ensures within { IfOk result (λ next. next ≤ GENERATION_LIMIT) }
    ensures free { IfOk result (λ next. has next files.now ≡ false) }
{
    match files.last() {
        None => Ok(1),
        Some(file) if file.generation < GENERATION_LIMIT => Ok(file.generation + 1),
        Some(_) => Err(GenFull),
    }
}

// How many files the highest keeps, and this many with no file.
pub(crate) fn keep_for(files: &[File], keep: u8) -> u8
    ensures { result ≡ keep_for keep files.now }
{
    match files.last() {
        Some(file) => file.keep,
        None => keep,
    }
}

// The lowest generation with this mark.
pub(crate) fn lowest(files: &[File], deleted: bool) -> Option<u32>
    requires { IsAscending 0 files.now }
    ensures { result ≡ lowest (with_mark deleted files.now) }
{
    for file in files {
        if file.deleted == deleted {
            return Some(file.generation);
        }
    }
    None
}

// How many files are not marked.
pub(crate) fn live(files: &[File]) -> usize
    ensures { result ≡ live files.now }
{
    files.iter().filter(|file| !file.deleted).count()
}

// The pages of a file, at most 26.
fn page_count(bytes: &Bytes) -> u32
    requires { length bytes.now ≤ FILE_LIMIT }
    ensures count { result ≡ page_count (length bytes.now) }
    ensures few { result ≤ 26 }
{
    bytes.len().div_ceil(PAGE_BYTES) as u32
}

// The pages of the files that are marked.
pub(crate) fn marked_pages(files: &[File]) -> u32
    requires { IsAscending 0 files.now }
    ensures { result ≡ pages (marked files.now) }
{
    let mut pages = 0;
    for file in files {
        if file.deleted {
            pages += page_count(&file.bytes);
        }
    }
    pages
}
