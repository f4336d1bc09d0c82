// Files as one flat list, read as plainly as can be: what the families of a store are to do, done slowly. The files
// are those of OPERATOR, and a step is told as a store tells it.

use super::places::place;
use super::steps::{store_after, told};
use crate::cases::{first_word, is_told};
use cm_fields::Gen;
use cm_files::matches;
use cm_text::Name;
use ex_generations::GENERATION_LIMIT;
use ex_store::Place;
use std::alloc::{AllocError, Global};
use std::process::Abort;

// A file.
#[derive(Drop)]
struct FlatFile {
    name: Name,
    kind: Name,
    generation: u32,
    deleted: bool,
}

// The files in ascending order, and how many generations of each are kept; all with 0.
#[derive(Drop)]
struct Flat {
    files: Vec<FlatFile>,
    keep: u32,
}

// Whether two files have one name and type.
fn is_same(file: &FlatFile, other: &FlatFile) -> bool {
    file.name.as_str() == other.name.as_str() && file.kind.as_str() == other.kind.as_str()
}

// Whether a file stands before another.
fn is_before(file: &FlatFile, other: &FlatFile) -> bool {
    let name = file.name.as_bytes().cmp(other.name.as_bytes());
    let kind = file.kind.as_bytes().cmp(other.kind.as_bytes());
    let generation = file.generation.cmp(&other.generation);
    name.then(kind).then(generation).is_lt()
}

// The greatest generation of a file's name and type, marked or not; 0 with none.
fn greatest(files: &[FlatFile], file: &FlatFile) -> u32 {
    let mut greatest = 0;
    for other in files {
        if is_same(file, other) {
            greatest = other.generation.max(greatest);
        }
    }
    greatest
}

// Whether there is a file of this name, type and generation.
fn is_there(files: &[FlatFile], file: &FlatFile) -> bool {
    for other in files {
        if is_same(file, other) && other.generation == file.generation {
            return true;
        }
    }
    false
}

// How many files stand before one.
fn place_of(files: &[FlatFile], file: &FlatFile) -> usize {
    let mut place: usize = 0;
    for other in files {
        if is_before(other, file) {
            place = place.saturating_add(1);
        }
    }
    place
}

// How many unmarked generations of a file are above it.
fn above(files: &[FlatFile], file: &FlatFile) -> u32 {
    let mut above: u32 = 0;
    for other in files {
        if is_same(file, other) && !other.deleted && other.generation > file.generation {
            above = above.saturating_add(1);
        }
    }
    above
}

// Marks each generation of a name and type that has as many unmarked ones above it as are kept.
fn retain(files: &mut Vec<FlatFile>, name: &str, kind: &str, keep: u32) {
    for i in 0..files.len() {
        if i < files.len() {
            let is_one = files[i].name.as_str() == name && files[i].kind.as_str() == kind;
            if is_one && keep > 0 && above(files, &files[i]) >= keep {
                files[i].deleted = true;
            }
        }
    }
}

// Whether a file has a name and a type that a place means, and this mark.
fn is_seen(file: &FlatFile, files: &Place, deleted: bool) -> bool {
    let Some(name) = &files.name else {
        return false;
    };
    let kind = match &files.kind {
        Some(kind) => kind.as_bytes(),
        None => b"",
    };
    file.deleted == deleted
        && matches(name.as_bytes(), file.name.as_bytes())
        && matches(kind, file.kind.as_bytes())
}

// Whether no file that is seen with this one, of its name and type, is above it; or below it.
fn is_end(
    files: &[FlatFile],
    file: &FlatFile,
    place: &Place,
    deleted: bool,
    highest: bool,
) -> bool {
    for other in files {
        let is_past = if highest {
            other.generation > file.generation
        } else {
            other.generation < file.generation
        };
        if is_past && is_same(file, other) && is_seen(other, place, deleted) {
            return false;
        }
    }
    true
}

// Whether a place means a file.
fn means(files: &[FlatFile], file: &FlatFile, place: &Place, deleted: bool) -> bool {
    let is_taken = match place.generation {
        Gen::Missing => { place.flags.all_generations || is_end(files, file, place, deleted, true) }
        Gen::Highest => is_end(files, file, place, deleted, true),
        Gen::Lowest => is_end(files, file, place, deleted, false),
        Gen::All => true,
        Gen::Next => false,
        Gen::Number(number) => file.generation == number,
    };
    is_taken && is_seen(file, place, deleted)
}

fn put_name(told: &mut String, file: &FlatFile) -> Result<(), AllocError> {
    let name = file.name.as_str();
    let kind = file.kind.as_str();
    let generation = file.generation;
    write!(told, "{name}.{kind}.{generation}")
}

// A file's name, after a space where it is not the first, with a minus where it is marked as deleted.
fn put_listed(told: &mut String, file: &FlatFile, is_first: &mut bool) -> Result<(), AllocError> {
    if !*is_first {
        told.push(' ')?;
    }
    *is_first = false;
    put_name(told, file)?;
    told.push_str(if file.deleted { "-" } else { "" })
}

fn put_end(told: &mut String, is_first: bool) -> Result<(), AllocError> {
    told.push_str(if is_first { "none" } else { "" })
}

// The number that a new generation takes, or why it takes none.
fn number_of(files: &[FlatFile], file: &FlatFile, generation: Gen) -> Result<u32, &'static str> {
    if let Gen::Number(number) = generation {
        return if is_there(files, file) {
            Err("FileExists")
        } else {
            Ok(number)
        };
    }
    let highest = greatest(files, file);
    if highest < GENERATION_LIMIT {
        Ok(highest + 1)
    } else {
        Err("GenFull")
    }
}

// The part of a place's name, or none of it.
fn part(part: &Option<Name>) -> Name {
    match part {
        Some(part) => Name::new(part.as_str()),
        None => Name::new(""),
    }
}

// A file that has the name and type of a place, and its generation or 0.
fn file_at(to: &Place) -> FlatFile {
    let generation = match to.generation {
        Gen::Number(number) => number,
        _ => 0,
    };
    FlatFile {
        name: part(&to.name),
        kind: part(&to.kind),
        generation,
        deleted: false,
    }
}

impl Flat {
    // A file is written.
    fn put(&mut self, to: &Place, told: &mut String) -> Result<(), AllocError> {
        let mut file = file_at(to);
        match number_of(&self.files, &file, to.generation) {
            Ok(number) => file.generation = number,
            Err(code) => return told.push_str(code),
        }
        put_name(told, &file)?;
        told.push_str("=>")?;
        put_name(told, &file)?;
        let at = place_of(&self.files, &file).min(self.files.len());
        let (name, kind) = (Name::new(file.name.as_str()), Name::new(file.kind.as_str()));
        self.files.insert(at, file)?;
        retain(&mut self.files, name.as_str(), kind.as_str(), self.keep);
        Ok(())
    }

    // Files are marked, or their marks are cleared; how many is told.
    fn remark(
        &mut self,
        alloc: Global,
        files: &Place,
        deleted: bool,
        told: &mut String,
    ) -> Result<(), AllocError> {
        let mut count: u32 = 0;
        let mut meant: Vec<usize> = Vec::new(alloc);
        for i in 0..self.files.len() {
            if means(&self.files, &self.files[i], files, files.flags.deleted) {
                meant.push(i)?;
                count = count.saturating_add(1);
            }
        }
        for i in meant {
            if i < self.files.len() {
                self.files[i].deleted = deleted;
            }
        }
        write!(told, "{count}")
    }
}

impl Flat {
    // The files that are marked as deleted are removed; how many is told.
    fn expunge(&mut self, told: &mut String) -> Result<(), AllocError> {
        let before = self.files.len();
        self.files.retain(|file| !file.deleted);
        let removed = before.saturating_sub(self.files.len());
        write!(told, "{removed}")
    }

    // The files that a place means, with this mark, are listed.
    fn list(&self, files: &Place, deleted: bool, told: &mut String) -> Result<(), AllocError> {
        let mut is_first = true;
        for file in &self.files {
            if means(&self.files, file, files, deleted) {
                put_listed(told, file, &mut is_first)?;
            }
        }
        put_end(told, is_first)
    }

    // All files are listed.
    fn list_all(&self, told: &mut String) -> Result<(), AllocError> {
        let mut is_first = true;
        for file in &self.files {
            put_listed(told, file, &mut is_first)?;
        }
        put_end(told, is_first)
    }

    // The number of the first file from a number on that a place means, with this mark.
    fn select(&self, files: &Place, deleted: bool, from: usize) -> Option<usize> {
        for i in from..self.files.len() {
            if means(&self.files, &self.files[i], files, deleted) {
                return Some(i);
            }
        }
        None
    }

    // Whether there is a file of a full name, and whether it is marked as deleted.
    fn find(&self, full: &Place) -> &'static str {
        let wanted = file_at(full);
        for file in &self.files {
            if is_same(file, &wanted) && file.generation == wanted.generation {
                return if file.deleted { "marked" } else { "there" };
            }
        }
        "none"
    }

    // What comes of a step, as a store tells it.
    fn put_step(
        &mut self,
        rt: &(impl Abort + AllocGlobal),
        step: &str,
        told: &mut String,
    ) -> Result<(), AllocError> {
        let (verb, rest) = first_word(step);
        let (files, more) = first_word(rest);
        let (mark, from) = first_word(more);
        match verb {
            "put" => self.put(&place(rt, files), told),
            "mark" => self.remark(rt.alloc(), &place(rt, files), true, told),
            "unmark" => self.remark(rt.alloc(), &place(rt, files), false, told),
            "expunge" => self.expunge(told),
            "names" => self.list_all(told),
            "find" => told.push_str(self.find(&place(rt, files))),
            "list" => self.list(&place(rt, files), mark == "deleted", told),
            _ => {
                let from = from.parse().expect(rt, "a number");
                write!(
                    told,
                    "{:?}",
                    self.select(&place(rt, files), mark == "deleted", from)
                )
            }
        }
    }
}

// What comes of each step on the flat list.
fn told_by_list(
    rt: &(impl Abort + AllocGlobal),
    keep: u32,
    steps: &str,
) -> Result<String, AllocError> {
    let mut flat = Flat {
        files: Vec::new(rt.alloc()),
        keep,
    };
    let mut told = String::new(rt.alloc());
    for step in steps.split("; ") {
        if !told.is_empty() {
            told.push_str("; ")?;
        }
        flat.put_step(rt, step, &mut told)?;
    }
    Ok(told)
}

/// Each line of steps comes to the same on a new store, whose directory keeps so many generations, as on the flat list.
pub(crate) fn agree(rt: &(impl Abort + AllocGlobal), keep: u32, cases: &str) {
    for case in cases.lines() {
        let start = format!(in rt.alloc(); "build OPERATOR {keep}").expect(rt, "memory");
        let mut store = store_after(rt, start.as_str());
        let told = told(rt, &mut store, case).expect(rt, "memory");
        let wanted = told_by_list(rt, keep, case).expect(rt, "memory");
        is_told(rt, &told, wanted.as_str(), case);
    }
}
