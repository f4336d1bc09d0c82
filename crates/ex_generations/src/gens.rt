// The generations of one file.
ghost use Rattle.std.specs.Prelude.{◌≡◌, ◌<◌, ◌≤◌, ◌+◌, ◌-◌, ◌*◌, ◌^◌, ◌↔◌, [], true, false, length, find, get_or, map, option_copied, position, set, slice_get, Some, IsTrue, IsErr, IsOk, IfOk, OnErr, OnOk};
ghost use Rattle.ex_generations.specs.declared.file.File.{File};
ghost use Rattle.ex_generations.specs.Generations.{IsAscending, blank, changed, has, highest, inserted, is_generation, keeping, lowest, marked, marked_as, next_generation, pages, rewritten, touched, unmarked, with_mark, with_remark, without};
ghost use Rattle.ex_generations.specs.Retention.{added, keep_for, retained};

use crate::{Bytes, FILE_LIMIT, File, GENERATION_LIMIT, GenFull, NoGen, Remark, change, search};
use cm_io::NoMemory;
use std::alloc::Global;
use std::marker::Model;

/// The files of one name and type, in ascending order of their generations. Contracts see the files, and for how
/// many there is room.
#[derive(Drop)]
pub struct Gens {
    files: Vec<File>,
}

impl Model for Gens {
    ghost use Rattle.std.specs.Prelude.{vec_capacity};
    ghost use Rattle.ex_generations.specs.Generations.{IsAscending, Kept};

    ghost Value = { Kept };

    ghost view = { λ gens. record { files = gens.files.items; room = vec_capacity gens.files } };

    ghost invariant = { λ gens. IsAscending 0 gens.files.items };
}

impl Gens {
    /// No file, and room for none.
    pub fn new(alloc: Global) -> Gens
        ensures { result ≡ record { files = []; room = 0 } }
    {
        Gens {
            files: Vec::new(alloc),
        }
    }

    /// The same files without their bytes, and never read.
    pub fn blank(&self, alloc: Global) -> Result<Gens, NoMemory>
        ensures { IfOk result (λ gens. gens.files ≡ map blank self.now.files) }
    {
        Ok(Gens {
            files: change::blanks(alloc, &self.files)?,
        })
    }

    /// How many files there are, deleted ones included.
    pub fn len(&self) -> u32
        ensures length { result ≡ length self.now.files }
        ensures ordered { IsAscending 0 self.now.files }
    {
        self.files.len() as u32
    }

    /// The file at a place in the ascending order.
    pub fn file(&self, i: u32) -> &File
        requires { i < length self.now.files }
        ensures { slice_get self.now.files i ≡ Some result.now }
    {
        &self.files[i as usize]
    }

    /// The files, in ascending order of their generations.
    pub fn as_slice(&self) -> &[File]
        ensures value { result.now ≡ self.now.files }
        ensures ordered { IsAscending 0 self.now.files }
    {
        &self.files
    }

    /// Where the file of this generation is in the ascending order; None where there is none. All that asks for a
    /// generation looks for it so. How often a file is looked at is added to `probes`: at most as often as the number
    /// of files has binary digits, so 11 times for 1,024 of them.
    pub fn position(&self, generation: u32, probes: &mut u64) -> Option<usize>
        ensures place { result ≡ position (is_generation generation) self.now.files }
        ensures later { probes.old ≤ probes.new }
        ensures few { 2 ^ (probes.new - probes.old) ≤ 2 * length self.now.files + 1 }
    {
        search::position(&self.files, generation, probes)
    }

    /// The file of this generation, where there is one.
    pub fn find(&self, generation: u32) -> Option<&File>
        ensures found { option_copied result ≡ find (is_generation generation) self.now.files }
        ensures ordered { IsAscending 0 self.now.files }
    {
        search::find(&self.files, generation)
    }

    /// Whether there is a file of this generation.
    pub fn has(&self, generation: u32) -> bool
        ensures there { result ≡ has generation self.now.files }
        ensures ordered { IsAscending 0 self.now.files }
    {
        search::has(&self.files, generation)
    }

    /// The generation of a new file: one more than the highest, deleted ones included, and 1 with no file. GenFull
    /// where the highest is 131,071.
    pub fn next(&self) -> Result<u32, GenFull>
        // [next-generation]
        ensures next { IfOk result (λ next. next ≡ next_generation self.now.files) }
        ensures full { IsErr result ↔ (highest self.now.files ≡ Some GENERATION_LIMIT) }
        ensures within { IfOk result (λ next. next ≤ GENERATION_LIMIT) }
        ensures free { IfOk result (λ next. has next self.now.files ≡ false) }
    {
        search::next(&self.files)
    }

    /// The highest generation of the files with this mark.
    pub fn highest(&self, deleted: bool) -> Option<u32>
        ensures { result ≡ highest (with_mark deleted self.now.files) }
    {
        search::highest(&self.files, deleted)
    }

    /// The lowest generation of the files with this mark.
    pub fn lowest(&self, deleted: bool) -> Option<u32>
        ensures { result ≡ lowest (with_mark deleted self.now.files) }
    {
        search::lowest(&self.files, deleted)
    }

    /// Makes room for so many more files. Only lack of memory can be in the way, and then the files stay.
    pub fn reserve(&mut self, n: usize) -> Result<(), NoMemory>
        ensures files { self.new.files ≡ self.old.files }
        ensures room { OnOk result (length self.new.files + n ≤ self.new.room) }
        ensures succeeds { length self.old.files + n ≤ self.old.room → IsOk result }
        ensures grows { self.old.room ≤ self.new.room }
        ensures ordered { IsAscending 0 self.new.files }
    {
        self.files.reserve(n)?;
        Ok(())
    }

    /// Puts a file at its place in the order, with the mark that it has. No other file changes.
    pub fn insert(&mut self, file: File)
        requires room { length self.old.files < self.old.room }
        requires short { length file.bytes ≤ FILE_LIMIT }
        requires from_one { 0 < file.generation }
        requires to_limit { file.generation ≤ GENERATION_LIMIT }
        requires absent { has file.generation self.old.files ≡ false }
        ensures inserted { self.new ≡ record self.old { files = inserted file self.old.files } }
        ensures ordered { IsAscending 0 self.old.files }
    {
        change::insert(&mut self.files, file);
    }

    /// Adds a file at its place in the order. Where its `keep` is not 0, all unmarked files but so many of the highest
    /// are then marked as deleted.
    pub fn add(&mut self, file: File)
        requires room { length self.old.files < self.old.room }
        requires short { length file.bytes ≤ FILE_LIMIT }
        requires from_one { 0 < file.generation }
        requires to_limit { file.generation ≤ GENERATION_LIMIT }
        requires absent { has file.generation self.old.files ≡ false }
        // [retention]
        ensures added { self.new ≡ record self.old { files = added file self.old.files } }
        ensures ordered { IsAscending 0 self.old.files }
    {
        let keep = file.keep;
        change::insert(&mut self.files, file);
        change::retain(&mut self.files, keep);
    }

    /// Marks all unmarked files as deleted but so many of the highest; with 0 none.
    pub fn retain_newest(&mut self, keep: u8)
        ensures { self.new ≡ record self.old { files = retained keep self.old.files } }
    {
        change::retain(&mut self.files, keep);
    }

    /// How many files the next one keeps: as many as the highest, marked or not, and `keep` where there is none.
    pub fn keep_for(&self, keep: u8) -> u8
        ensures { result ≡ keep_for keep self.now.files }
    {
        search::keep_for(&self.files, keep)
    }

    /// Marks the file of a generation as deleted. NoGen where there is none, and then nothing changes.
    pub fn mark(&mut self, generation: u32) -> Result<(), NoGen>
        ensures none { IsErr result ↔ (has generation self.old.files ≡ false) }
        ensures marked { OnOk result (self.new ≡ record self.old {
          files = changed generation (marked_as true) self.old.files;
        }) }
        ensures err { OnErr result (self.new ≡ self.old) }
    {
        change::remark(&mut self.files, generation, Remark::Deleted(true))
    }

    /// Clears the mark of the file of a generation. NoGen where there is none, and then nothing changes.
    pub fn unmark(&mut self, generation: u32) -> Result<(), NoGen>
        ensures none { IsErr result ↔ (has generation self.old.files ≡ false) }
        ensures unmarked { OnOk result (self.new ≡ record self.old {
          files = changed generation (marked_as false) self.old.files;
        }) }
        ensures err { OnErr result (self.new ≡ self.old) }
    {
        change::remark(&mut self.files, generation, Remark::Deleted(false))
    }

    /// Sets how many files that of a generation keeps, and marks none. NoGen where there is none, and then nothing
    /// changes.
    pub fn set_keep(&mut self, generation: u32, keep: u8) -> Result<(), NoGen>
        ensures none { IsErr result ↔ (has generation self.old.files ≡ false) }
        ensures kept { OnOk result (self.new ≡ record self.old {
          files = changed generation (keeping keep) self.old.files;
        }) }
        ensures err { OnErr result (self.new ≡ self.old) }
    {
        change::remark(&mut self.files, generation, Remark::Keep(keep))
    }

    /// Sets when the file of a generation was last read. NoGen where there is none, and then nothing changes.
    pub fn touch(&mut self, generation: u32, moment: u64) -> Result<(), NoGen>
        ensures none { IsErr result ↔ (has generation self.old.files ≡ false) }
        ensures touched { OnOk result (self.new ≡ record self.old {
          files = changed generation (touched moment) self.old.files;
        }) }
        ensures err { OnErr result (self.new ≡ self.old) }
    {
        change::remark(&mut self.files, generation, Remark::Read(moment))
    }

    /// Changes what a remark names, of the file at a place in the ascending order.
    pub fn remark(&mut self, i: usize, remark: Remark)
        requires { i < length self.old.files }
        ensures { (d : File) → self.new ≡ record self.old {
          files = set self.old.files i (with_remark remark (get_or self.old.files i d));
        } }
    {
        change::remark_at(&mut self.files, i, remark);
    }

    /// Takes the file of a generation out. The room stays.
    pub fn remove(&mut self, generation: u32) -> File
        requires { has generation self.old.files ≡ true }
        ensures file { find (is_generation generation) self.old.files ≡ Some result }
        ensures rest { self.new ≡ record self.old { files = without generation self.old.files } }
    {
        change::take(&mut self.files, generation)
    }

    /// Gives the file of a generation another moment and other bytes.
    pub fn replace(&mut self, generation: u32, moment: u64, bytes: Bytes)
        requires there { has generation self.old.files ≡ true }
        requires short { length bytes ≤ FILE_LIMIT }
        ensures { self.new ≡ record self.old {
          files = changed generation (rewritten moment bytes) self.old.files;
        } }
    {
        change::rewrite(&mut self.files, generation, moment, bytes);
    }

    /// Removes the files that are marked as deleted, and tells how many pages they had.
    pub fn expunge(&mut self) -> u32
        ensures kept { self.new ≡ record self.old { files = unmarked self.old.files } }
        ensures pages { result ≡ pages (marked self.old.files) }
    {
        let pages = search::marked_pages(&self.files);
        change::drop_marked(&mut self.files);
        pages
    }
}
