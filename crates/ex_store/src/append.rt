// The bytes of files are put after those of one file.
ghost use Rattle.std.specs.Prelude.{◌≡◌, ◌≤◌, List, Some, true, length, nat_le, nat_lt, IfOk, IfErr, Ok};
ghost use Rattle.std.specs.List.{list_all};
ghost use Rattle.cm_lists.specs.Ascent.{ascends};
ghost use Rattle.ex_store.specs.declared.limits.TheConstants.{RETENTION_LIMIT, ROW_LIMIT, STORE_LIMIT};
ghost use Rattle.ex_generations.specs.declared.file.TheConstants.{FILE_LIMIT};
ghost use Rattle.ex_store.specs.declared.plan.Plan.TheVariants as plans;
ghost use Rattle.ex_store.specs.declared.row.Row.{Row as Filed};
ghost use Rattle.ex_store.specs.Appending.{appended, fitting, opened, pairs_to, concatenation, row_changes_of};
ghost use Rattle.ex_store.specs.Copying.{moment_of};
ghost use Rattle.ex_store.specs.Plan.{IsOneFile, IsRefused, MayPlan, planned};
ghost use Rattle.ex_store.specs.Positions.{elements_at};
ghost use Rattle.ex_store.specs.Ready.{IsMade, applied, are_doable, done_on, is_reading_within, rows_read};
ghost use Rattle.ex_store.specs.Rows.{AreAlike, by_row, total};
ghost use Rattle.ex_store.specs.State.{retention_of};
ghost use Rattle.ex_store.specs.WellFormed.{AreRows, IsWellFormed};

use crate::adding::admitted;
use crate::copy::moment_of;
use crate::directories::Directories;
use crate::files::Files;
use crate::limits::STORE_LIMIT;
use crate::ready::Reading;
use crate::{FullName, Key, NamePair, Place, Ready, Refusal, Row, RowChange, Store};
use cm_fields::{Code, Gen};
use cm_io::NoMemory;
use ex_generations::{Bytes, FILE_LIMIT};
use std::alloc::Global;

// These bytes more, after so many of a file and beside so many in all: or the limit that is passed.
fn fits(all: usize, size: usize, more: usize) -> Result<(), Code>
    requires all { all ≤ STORE_LIMIT }
    requires size { size ≤ FILE_LIMIT }
    ensures { result ≡ fitting all size more }
{
    if more > FILE_LIMIT - size {
        Err(Code::FileSize)
    } else if more > STORE_LIMIT - all {
        Err(Code::StoreSize)
    } else {
        Ok(())
    }
}

// The bytes of the sources at these places, after those.
fn concatenate(files: &Files, positions: &[u16], bytes: Vec<u8>) -> Result<Bytes, Refusal>
    requires within { list_all (λ at. nat_lt at (length files.now.rows)) positions.now ≡ true }
    requires all { total files.now.rows ≤ STORE_LIMIT }
    requires short { length bytes.items ≤ FILE_LIMIT }
    ensures ok { IfOk result (λ out.
        concatenation (total files.now.rows) bytes.items (elements_at files.now.rows positions.now) ≡ Ok out) }
    ensures refused { IfErr result (IsRefused
        (concatenation (total files.now.rows) bytes.items (elements_at files.now.rows positions.now))) }
{
    let mut bytes = bytes;
    let mut all = files.total();
    for at in positions {
        let more = files.row_at(usize::from(*at)).file.bytes.as_slice();
        match fits(all, bytes.len(), more.len()) {
            Ok(()) => {}
            Err(code) => return Err(Refusal::Code(code)),
        }
        match bytes.extend_from_slice(more) {
            Ok(()) => all += more.len(),
            Err(_) => return Err(Refusal::NoMemory),
        }
    }
    Ok(Bytes::new(bytes))
}

// Each source goes to the target.
fn pairs_to(
    alloc: Global,
    files: &Files,
    positions: &[u16],
    target: &FullName,
) -> Result<Vec<NamePair>, NoMemory>
    requires { list_all (λ at. nat_lt at (length files.now.rows)) positions.now ≡ true }
    ensures { IfOk result (λ pairs. pairs.items ≡ pairs_to target.now (elements_at files.now.rows positions.now)) }
{
    let mut pairs = Vec::new(alloc);
    for at in positions {
        pairs.push(NamePair {
            source: files.row_at(usize::from(*at)).full_name(),
            target: target.copy(),
        })?;
    }
    Ok(pairs)
}

// The file that is put after: its full name, and the empty row that is added where it is a new one.
#[derive(Debug, Drop)]
struct Opening {
    target: FullName,
    new: Option<Row>,
}

// The file is there, or an empty one is added.
fn opened(
    alloc: Global,
    files: &Files,
    key: Key,
    generation: Gen,
    moment: u64,
    retention: u8,
) -> Result<Opening, Code>
    requires rows { ascends by_row files.now.rows ≡ true }
    requires bytes { total files.now.rows ≤ STORE_LIMIT }
    ensures { result ≡ opened retention moment key generation files.now.rows }
{
    let number = match files.found(&key, generation) {
        Ok(Some(number)) => {
            let target = FullName {
                key,
                generation: number,
            };
            return Ok(Opening { target, new: None });
        }
        Ok(None) => {
            let number = files.numbered(&key, generation);
            match admitted(number, files.len(), files.total(), 0) {
                Ok(number) => number,
                Err(code) => return Err(code),
            }
        }
        Err(code) => return Err(code),
    };
    let keep = files.keep_at(&key, retention);
    let bytes = Bytes::new(Vec::new(alloc));
    let new = Row::new(key, keep, number, moment_of(moment), bytes);
    Ok(Opening {
        target: new.full_name(),
        new: Some(new),
    })
}

// What is to be done: an empty row is added where there is none yet, and then the bytes are filled in.
fn row_changes_of(
    alloc: Global,
    opening: Opening,
    moment: u64,
    bytes: Bytes,
) -> Result<Vec<RowChange>, NoMemory>
    ensures { IfOk result (λ row_changes. row_changes.items ≡ row_changes_of opening (moment_of moment) bytes) }
{
    let Opening { target, new } = opening;
    let mut row_changes = Vec::new(alloc);
    if let Some(row) = new {
        row_changes.push(RowChange::Add(row))?;
    }
    row_changes.push(RowChange::Fill {
        target,
        moment: moment_of(moment),
        bytes,
    })?;
    Ok(row_changes)
}

// The sources at these places are put after one file, and then are read. What is made does not depend on who has read
// what.
fn appends(
    alloc: Global,
    directories: &Directories,
    files: &Files,
    positions: &[u16],
    to: &Place,
    moment: u64,
    reading: Reading,
) -> Result<Ready, Refusal>
    requires rows { AreRows directories.now.list files.now.rows }
    requires within { list_all (λ at. nat_lt at (length files.now.rows)) positions.now ≡ true }
    requires few { length positions.now ≤ ROW_LIMIT }
    requires target { IsOneFile to.now directories.now.list }
    requires retention { nat_le (retention_of to.now.directory directories.now.list) RETENTION_LIMIT ≡ true }
    requires reading { is_reading_within (Some reading) ≡ true }
    ensures made { let sources = elements_at files.now.rows positions.now in
        let retention = retention_of to.now.directory directories.now.list in
        (rows : List Filed) → AreAlike files.now.rows rows → AreRows directories.now.list rows
        → IfOk result
        (IsMade directories.now.list rows (appended retention moment to.now sources rows) (Some reading)) }
    ensures refused { let sources = elements_at files.now.rows positions.now in
        let retention = retention_of to.now.directory directories.now.list in
        (rows : List Filed) → AreAlike files.now.rows rows → AreRows directories.now.list rows
        → IfErr result (IsRefused (appended retention moment to.now sources rows)) }
{
    let retention = directories.retention_of(to.directory.as_str());
    let opening = match opened(alloc, files, to.own_key(), to.generation, moment, retention) {
        Ok(opening) => opening,
        Err(code) => return Err(Refusal::Code(code)),
    };
    let old = match Vec::from_slice(alloc, files.bytes_at(&opening.target)) {
        Ok(old) => old,
        Err(_) => return Err(Refusal::NoMemory),
    };
    let bytes = match concatenate(files, positions, old) {
        Ok(bytes) => bytes,
        Err(refusal) => return Err(refusal),
    };
    let pairs = match pairs_to(alloc, files, positions, &opening.target) {
        Ok(pairs) => pairs,
        Err(NoMemory) => return Err(Refusal::NoMemory),
    };
    match row_changes_of(alloc, opening, moment, bytes) {
        Ok(row_changes) => Ok(Ready::of_files(alloc, Some(reading), row_changes, pairs)),
        Err(NoMemory) => Err(Refusal::NoMemory),
    }
}

impl Store {
    // The bytes of files are put after those of one file.
    pub(crate) fn append(&self, from: &Place, to: &Place, moment: u64) -> Result<Ready, Refusal>
        requires { MayPlan (plans.Append from.now to.now) self.now.state }
        ensures ready { IfOk result (λ ready.
            planned (plans.Append from.now to.now) moment self.now.state ≡ Ok (done_on self.now.state ready)) }
        ensures sound { IfOk result (λ ready. IsWellFormed (applied ready self.now.state)) }
        ensures doable { IfOk result (λ ready.
            are_doable (rows_read ready.reading self.now.state) ready.row_changes ≡ true) }
        ensures refused { IfErr result (IsRefused (planned (plans.Append from.now to.now) moment self.now.state)) }
    {
        let positions = self.positions(from, from.flags.deleted);
        let reading = Reading {
            files: from.copy(),
            moment: moment_of(moment),
        };
        appends(
            self.alloc,
            &self.directories,
            &self.files,
            &positions,
            to,
            moment,
            reading,
        )
    }
}
