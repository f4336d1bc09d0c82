// Files by family: the generations of one name and type in a directory, as a store has them, and a plan that is played.
// Families in a vector are boxed (FamilyBox), with the family as the value. Methods enter the box by c.deref.ensures
// and c.deref_mut.ensures.value, each followed by c.self.view_is. Over the vector call methods alone, as
// families[at].key(): no field after the box is covered.
ghost use Rattle.std.specs.Prelude.{◌≡◌, ◌<◌, ◌≤◌, ◌-◌, ◌*◌, ◌^◌, [], true, false, get_or, length, map, position, take, ◌+◌, IfOk, IfSome, OnErr, OnOk, Ok, option_copied, option_map};
ghost use Rattle.std.specs.List.{prefix_len};
ghost use Rattle.std.specs.Ordering.{is_lt};
ghost use Rattle.cm_lists.specs.Ascent.{ascends};
ghost use Rattle.ex_generations.specs.declared.file.TheConstants.{FILE_LIMIT, GENERATION_LIMIT};
ghost use Rattle.ex_generations.specs.Generations.{IsAscending, has};
ghost use Rattle.ex_store.specs.Adding.{keep_at, numbered};
ghost use Rattle.ex_store.specs.Appending.{bytes_at, found};
ghost use Rattle.ex_store.specs.Families.{EachHasRoom, by_family, is_under, is_under_either, room_at, rooms_of, row_under, rows_of, rows_under, demand_at};
ghost use Rattle.ex_store.specs.declared.family.Family.{Family as FamilyValue};
ghost use Rattle.ex_store.specs.declared.key.FullName.{FullName as Full};
ghost use Rattle.ex_store.specs.declared.key.Key.{Key as Named};
ghost use Rattle.ex_store.specs.Rows.{added, blank, by_key, filled, files_of, inserted, row_at, rows_in_either, without};

use crate::key::key_cmp;
use crate::{FullName, Key, Row};
use cm_fields::{Code, Gen};
use cm_io::NoMemory;
use cm_text::seek;
use ex_generations::{Bytes, File, GenFull, Gens};
use std::alloc::Global;
use std::marker::Model;

// The generations of one name and type in a directory.
#[derive(Drop)]
pub(crate) struct Family {
    pub(crate) key: Key,
    pub(crate) gens: Gens,
    // How many files the families up to this one have, where they are counted.
    pub(crate) end: usize,
    // How many files a plan is to put under it, while room is made.
    pub(crate) demand: usize,
}

// One of a list of families. It is on the heap, so that a family that is entered before it moves a pointer alone.
#[derive(Drop)]
pub(crate) struct FamilyBox {
    pub(crate) family: Box<Family>,
}

impl Model for FamilyBox {
    ghost use Rattle.ex_store.specs.declared.family.Family.{Family};

    ghost Value = { Family };

    ghost view = { λ it. it.family.value };
}

impl FamilyBox {
    // A family without files.
    pub(crate) fn new(alloc: Global, key: Key) -> Result<FamilyBox, NoMemory>
        ensures { IfOk result (λ family. family
            ≡ record { key = key; gens = record { files = []; room = 0 }; end = 0; demand = 0 }) }
    {
        let family = Family {
            key,
            gens: Gens::new(alloc),
            end: 0,
            demand: 0,
        };
        Ok(FamilyBox {
            family: Box::new(alloc, family)?,
        })
    }

    // Adds a file, and then as many unmarked generations are kept as it says.
    fn add(&mut self, file: File) -> Result<(), NoMemory>
        requires short { length file.bytes ≤ FILE_LIMIT }
        requires from_one { 0 < file.generation }
        requires to_limit { file.generation ≤ GENERATION_LIMIT }
        requires absent { has file.generation self.old.gens.files ≡ false }
        ensures key { self.new.key ≡ self.old.key }
        ensures rows { OnOk result
            (rows_under self.new ≡ added file.keep (row_under self.old.key file) (rows_under self.old)) }
        ensures few { length self.new.gens.files ≤ length self.old.gens.files + 1 }
        ensures refused { OnErr result (rows_under self.new ≡ rows_under self.old) }
    {
        self.family.gens.reserve(1)?;
        self.family.gens.add(file);
        Ok(())
    }

    // Adds a file at its place, and marks none.
    pub(crate) fn insert(&mut self, file: File) -> Result<(), NoMemory>
        requires short { length file.bytes ≤ FILE_LIMIT }
        requires from_one { 0 < file.generation }
        requires to_limit { file.generation ≤ GENERATION_LIMIT }
        requires absent { has file.generation self.old.gens.files ≡ false }
        ensures key { self.new.key ≡ self.old.key }
        ensures rows { OnOk result
            (rows_under self.new ≡ inserted (row_under self.old.key file) (rows_under self.old)) }
        ensures few { length self.new.gens.files ≤ length self.old.gens.files + 1 }
        ensures refused { OnErr result (rows_under self.new ≡ rows_under self.old) }
    {
        self.family.gens.reserve(1)?;
        self.family.gens.insert(file);
        Ok(())
    }

    // Adds a file where there is room for it, and then as many unmarked generations are kept as it says.
    fn put(&mut self, file: File)
        requires room { length self.old.gens.files < self.old.gens.room }
        requires short { length file.bytes ≤ FILE_LIMIT }
        requires from_one { 0 < file.generation }
        requires to_limit { file.generation ≤ GENERATION_LIMIT }
        requires absent { has file.generation self.old.gens.files ≡ false }
        ensures key { self.new.key ≡ self.old.key }
        ensures room { self.new.gens.room ≡ self.old.gens.room }
        ensures rows { rows_under self.new ≡ added file.keep (row_under self.old.key file) (rows_under self.old) }
    {
        self.family.gens.add(file);
    }

    // Gives the file of a generation another moment and other bytes, where there is one.
    fn fill(&mut self, generation: u32, moment: u64, bytes: Bytes)
        requires { length bytes ≤ FILE_LIMIT }
        ensures key { self.new.key ≡ self.old.key }
        ensures room { self.new.gens.room ≡ self.old.gens.room }
        ensures rows { let full : Full = record { key = self.old.key; generation = generation } in
            rows_under self.new ≡ filled full moment bytes (rows_under self.old) }
    {
        if self.family.gens.has(generation) {
            self.family.gens.replace(generation, moment, bytes);
        }
    }

    // The same without the bytes of its files, as if nobody had read them.
    fn blank(&self, alloc: Global) -> Result<FamilyBox, NoMemory>
        ensures key { IfOk result (λ family. family.key ≡ self.now.key) }
        ensures rows { IfOk result (λ family. rows_under family ≡ map blank (rows_under self.now)) }
    {
        let family = Family {
            key: self.family.key.copy(),
            gens: self.family.gens.blank(alloc)?,
            end: 0,
            demand: 0,
        };
        Ok(FamilyBox {
            family: Box::new(alloc, family)?,
        })
    }

    // What the file of a generation holds; nothing where there is none.
    fn bytes_at(&self, generation: u32) -> &[u8]
        ensures { let full : Full = record { key = self.now.key; generation = generation } in
            result.now ≡ bytes_at full (rows_under self.now) }
    {
        match self.family.gens.find(generation) {
            Some(file) => file.bytes.as_slice(),
            None => b"",
        }
    }

    // The file of a generation, where there is one.
    fn find(&self, generation: u32) -> Option<&File>
        ensures { let full : Full = record { key = self.now.key; generation = generation } in
            option_map (row_under self.now.key) (option_copied result) ≡ row_at full (rows_under self.now) }
    {
        self.family.gens.find(generation)
    }

    // Its directory, name and type.
    pub(crate) fn key(&self) -> &Key
        ensures { result.now ≡ self.now.key }
    {
        &self.family.key
    }

    // Its generations.
    fn gens(&self) -> &Gens
        ensures { result.now ≡ self.now.gens }
    {
        &self.family.gens
    }

    // Its files, in ascending order of their generations.
    pub(crate) fn files(&self) -> &[File]
        ensures value { result.now ≡ self.now.gens.files }
        ensures ordered { IsAscending 0 self.now.gens.files }
    {
        self.family.gens.as_slice()
    }

    // Whether it is one of either directory.
    fn is_in_either(&self, first: &[u8], second: &[u8]) -> bool
        ensures { result ≡ is_under_either first.now second.now self.now }
    {
        let directory = self.key().directory.as_bytes();
        directory.cmp(first).is_eq() || directory.cmp(second).is_eq()
    }

    // Takes the file of a generation out, where there is one.
    fn remove(&mut self, generation: u32) -> Option<File>
        ensures key { self.new.key ≡ self.old.key }
        ensures room { self.new.gens.room ≡ self.old.gens.room }
        ensures file { let full : Full = record { key = self.old.key; generation = generation } in
            option_map (row_under self.old.key) result ≡ row_at full (rows_under self.old) }
        ensures rows { let full : Full = record { key = self.old.key; generation = generation } in
            rows_under self.new ≡ without full (rows_under self.old) }
        ensures short { IfSome result (λ file. length file.bytes ≤ FILE_LIMIT) }
    {
        if !self.family.gens.has(generation) {
            return None;
        }
        Some(self.family.gens.remove(generation))
    }
}

// How many families are before the place of this one. How often a family is asked is added to `probes`.
fn place(families: &[FamilyBox], key: &Key, probes: &mut u64) -> usize
    requires { ascends by_family families.now ≡ true }
    ensures place { result ≡ prefix_len (λ family. is_lt (by_key family.key key.now)) families.now }
    ensures later { probes.old ≤ probes.new }
    ensures few { 2 ^ (probes.new - probes.old) ≤ 2 * length families.now + 1 }
{
    seek(
        families,
        |family| key_cmp(family.key(), key).is_lt(),
        probes,
    )
}

// Where a family stands. How often a family is asked is added to `probes`.
pub(crate) fn position(families: &[FamilyBox], key: &Key, probes: &mut u64) -> Option<usize>
    requires { ascends by_family families.now ≡ true }
    ensures place { result ≡ position (is_under key.now) families.now }
    ensures later { probes.old ≤ probes.new }
    ensures few { 2 ^ (probes.new - probes.old) ≤ 2 * length families.now + 1 }
{
    let at = place(families, key, probes);
    match families.get(at) {
        Some(family) if key_cmp(family.key(), key).is_eq() => Some(at),
        _ => None,
    }
}

// The generation that a new file takes beside these: a number that is given, and else the next.
fn numbered_beside(gens: &Gens, generation: Gen) -> Result<u32, Code>
    ensures { result ≡ numbered generation gens.now.files }
{
    match generation {
        Gen::Number(number) if gens.has(number) => Err(Code::FileExists),
        Gen::Number(number) => Ok(number),
        _ => match gens.next() {
            Ok(number) => Ok(number),
            Err(GenFull) => Err(Code::GenFull),
        },
    }
}

// The same beside none.
fn first_number(generation: Gen) -> u32
    ensures { Ok result ≡ numbered generation [] }
{
    match generation {
        Gen::Number(number) => number,
        _ => 1,
    }
}

// The generation that a new file of a family takes: a number that is given, and else the next.
pub(crate) fn numbered(families: &[FamilyBox], key: &Key, generation: Gen) -> Result<u32, Code>
    requires { ascends by_family families.now ≡ true }
    ensures { result ≡ numbered generation (files_of key.now (rows_of families.now)) }
{
    match position(families, key, &mut 0) {
        Some(at) => numbered_beside(families[at].gens(), generation),
        None => Ok(first_number(generation)),
    }
}

// Where a family stands, which is entered at its place where it is not there yet.
pub(crate) fn enter(
    families: &mut Vec<FamilyBox>,
    alloc: Global,
    key: &Key,
) -> Result<usize, NoMemory>
    requires { ascends by_family families.old.items ≡ true }
    ensures rows { rows_of families.new.items ≡ rows_of families.old.items }
    ensures ascend { ascends by_family families.new.items ≡ true }
    ensures within { IfOk result (λ at. at < length families.new.items) }
    ensures there { IfOk result (λ at. (d : FamilyValue) → is_under key.now (get_or families.new.items at d) ≡ true) }
    ensures front { IfOk result (λ at. take at families.new.items ≡ take at families.old.items) }
    ensures refused { OnErr result (families.new.items ≡ families.old.items) }
    ensures lean { length families.new.items ≤ length families.old.items + 1 }
    ensures demand { (other : Named) → demand_at other families.new.items ≡ demand_at other families.old.items }
    ensures room { EachHasRoom families.old.items → EachHasRoom families.new.items }
{
    if let Some(at) = position(families, key, &mut 0) {
        return Ok(at);
    }
    let at = place(families, key, &mut 0);
    let family = FamilyBox::new(alloc, key.copy())?;
    families.insert(at, family)?;
    Ok(at)
}

// How many generations a new file of a family keeps: as many as the highest of them, and else this number.
pub(crate) fn keep_at(families: &[FamilyBox], key: &Key, retention: u8) -> u8
    requires { ascends by_family families.now ≡ true }
    ensures { result ≡ keep_at retention key.now (rows_of families.now) }
{
    match position(families, key, &mut 0) {
        Some(at) => families[at].gens().keep_for(retention),
        None => retention,
    }
}

// Adds a file under its family, and then as many unmarked generations are kept as it says.
pub(crate) fn add(families: &mut Vec<FamilyBox>, alloc: Global, row: Row) -> Result<(), NoMemory>
    requires families { ascends by_family families.old.items ≡ true }
    requires short { length row.file.bytes ≤ FILE_LIMIT }
    requires from_one { 0 < row.file.generation }
    requires to_limit { row.file.generation ≤ GENERATION_LIMIT }
    requires absent { has row.file.generation (files_of row.key (rows_of families.old.items)) ≡ false }
    ensures rows { OnOk result (rows_of families.new.items ≡ added row.file.keep row (rows_of families.old.items)) }
    ensures ascend { ascends by_family families.new.items ≡ true }
{
    let at = enter(families, alloc, &row.key)?;
    families[at].add(row.file)?;
    Ok(())
}

// The file of a full name, where there is one. How often a family is asked is added to `probes`.
pub(crate) fn find<'a>(
    families: &'a [FamilyBox],
    full: &FullName,
    probes: &mut u64,
) -> Option<&'a File>
    requires { ascends by_family families.now ≡ true }
    ensures file { option_map (row_under full.now.key) (option_copied result) ≡ row_at full.now (rows_of families.now) }
    ensures later { probes.old ≤ probes.new }
    ensures few { 2 ^ (probes.new - probes.old) ≤ 2 * length families.now + 1 }
{
    match position(families, &full.key, probes) {
        Some(at) => families[at].find(full.generation),
        None => None,
    }
}

// Takes the file of a full name out, where there is one.
pub(crate) fn remove(families: &mut [FamilyBox], full: &FullName) -> Option<File>
    requires { ascends by_family families.old ≡ true }
    ensures file { option_map (row_under full.now.key) result ≡ row_at full.now (rows_of families.old) }
    ensures short { IfSome result (λ file. length file.bytes ≤ FILE_LIMIT) }
    ensures rows { rows_of families.new ≡ without full.now (rows_of families.old) }
    ensures ascend { ascends by_family families.new ≡ true }
    ensures rooms { rooms_of families.new ≡ rooms_of families.old }
{
    match position(families, &full.key, &mut 0) {
        Some(at) => families[at].remove(full.generation),
        None => None,
    }
}

// Adds a file under a family that has room for it, and then as many unmarked generations are kept as it says.
pub(crate) fn put(families: &mut [FamilyBox], row: Row)
    requires families { ascends by_family families.old ≡ true }
    requires room { length (files_of row.key (rows_of families.old)) < room_at row.key (rooms_of families.old) }
    requires short { length row.file.bytes ≤ FILE_LIMIT }
    requires from_one { 0 < row.file.generation }
    requires to_limit { row.file.generation ≤ GENERATION_LIMIT }
    requires absent { has row.file.generation (files_of row.key (rows_of families.old)) ≡ false }
    ensures rows { rows_of families.new ≡ added row.file.keep row (rows_of families.old) }
    ensures ascend { ascends by_family families.new ≡ true }
    ensures rooms { rooms_of families.new ≡ rooms_of families.old }
{
    match position(families, &row.key, &mut 0) {
        Some(at) => families[at].put(row.file),
        None => unreachable!(),
    }
}

// Gives the file of a full name another moment and other bytes, where there is one.
pub(crate) fn fill(families: &mut [FamilyBox], target: &FullName, moment: u64, bytes: Bytes)
    requires families { ascends by_family families.old ≡ true }
    requires short { length bytes ≤ FILE_LIMIT }
    ensures rows { rows_of families.new ≡ filled target.now moment bytes (rows_of families.old) }
    ensures ascend { ascends by_family families.new ≡ true }
    ensures rooms { rooms_of families.new ≡ rooms_of families.old }
{
    if let Some(at) = position(families, &target.key, &mut 0) {
        families[at].fill(target.generation, moment, bytes);
    }
}

// The families of two directories, with their files without their bytes, as if nobody had read them.
pub(crate) fn blanks(
    alloc: Global,
    families: &[FamilyBox],
    from: &[u8],
    to: &[u8],
) -> Result<Vec<FamilyBox>, NoMemory>
    requires { ascends by_family families.now ≡ true }
    ensures rows { IfOk result (λ blanks.
        rows_of blanks.items ≡ map blank (rows_in_either from.now to.now (rows_of families.now))) }
    ensures ascend { IfOk result (λ blanks. ascends by_family blanks.items ≡ true) }
{
    let mut blanks = Vec::new(alloc);
    for family in families {
        if !family.is_in_either(from, to) {
            continue;
        }
        blanks.push(family.blank(alloc)?)?;
    }
    Ok(blanks)
}

// What a file holds; nothing where it is not there.
pub(crate) fn bytes_at<'a>(families: &'a [FamilyBox], full: &FullName) -> &'a [u8]
    requires { ascends by_family families.now ≡ true }
    ensures { result.now ≡ bytes_at full.now (rows_of families.now) }
{
    match position(families, &full.key, &mut 0) {
        Some(at) => families[at].bytes_at(full.generation),
        None => b"",
    }
}

// The generation that is put after, beside these, or none, where a new one is added.
fn found_beside(gens: &Gens, generation: Gen) -> Result<Option<u32>, Code>
    ensures { result ≡ found generation gens.now.files }
{
    match generation {
        Gen::Next => Ok(None),
        Gen::Lowest => Ok(gens.lowest(false)),
        Gen::Missing | Gen::Highest | Gen::All => Ok(gens.highest(false)),
        Gen::Number(number) => match gens.find(number) {
            Some(file) if file.deleted => Err(Code::NoFile),
            Some(_) => Ok(Some(number)),
            None => Ok(None),
        },
    }
}

// The generation of a family that is put after, or none, where a new one is added.
pub(crate) fn found(families: &[FamilyBox], key: &Key, generation: Gen) -> Result<Option<u32>, Code>
    requires { ascends by_family families.now ≡ true }
    ensures { result ≡ found generation (files_of key.now (rows_of families.now)) }
{
    match position(families, key, &mut 0) {
        Some(at) => found_beside(families[at].gens(), generation),
        None => Ok(None),
    }
}
