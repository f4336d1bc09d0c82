// Files are copied.
ghost use Rattle.std.specs.Prelude.{◌≡◌, List, Some, ◌≤◌, true, false, [], ◌∷◌, ◌++◌, length, nat_le, nat_lt, IfOk, IfErr, OnOk, Ok};
ghost use Rattle.std.specs.List.{list_all};
ghost use Rattle.cm_lists.specs.Ascent.{ascends};
ghost use Rattle.ex_generations.specs.Generations.{has};
ghost use Rattle.ex_store.specs.Views.{row_of_view};
ghost use Rattle.ex_store.specs.declared.limits.TheConstants.{RETENTION_LIMIT, ROW_LIMIT};
ghost use Rattle.ex_store.specs.declared.plan.Plan.TheVariants as plans;
ghost use Rattle.ex_store.specs.declared.ready.RowChange.TheVariants as changes;
ghost use Rattle.ex_store.specs.declared.row.Row.{Row as Filed};
ghost use Rattle.ex_store.specs.Adding.{new_row};
ghost use Rattle.ex_store.specs.Copying.{all_copied, moment_of};
ghost use Rattle.ex_store.specs.Families.{by_family, rows_of};
ghost use Rattle.ex_store.specs.Plan.{IsRefused, IsTarget, MayPlan, planned};
ghost use Rattle.ex_store.specs.Positions.{elements_at};
ghost use Rattle.ex_store.specs.Ready.{IsMade, applied, are_doable, done_on, is_reading_within, rows_read};
ghost use Rattle.ex_store.specs.Rows.{AreAlike, added, blank, files_of, full_of};
ghost use Rattle.ex_store.specs.State.{retention_of};
ghost use Rattle.ex_store.specs.WellFormed.{AreRows, IsWellFormed, is_numbered};

use crate::adding::admitted;
use crate::directories::Directories;
use crate::family::{add, keep_at, numbered};
use crate::files::Files;
use crate::limits::MOMENT_LIMIT;
use crate::ready::Reading;
use crate::simulation::Simulation;
use crate::{Key, NamePair, Place, Ready, Refusal, Row, RowChange, RowView, Store};
use cm_fields::Code;
use cm_io::NoMemory;
use std::alloc::Global;

pub(crate) fn moment_of(moment: u64) -> u64
    ensures { result ≡ moment_of moment }
{
    moment.min(MOMENT_LIMIT)
}

impl Simulation {
    // A source is copied under a name and a generation, and keeps so many generations there.
    fn copy(
        &mut self,
        alloc: Global,
        source: RowView<'_>,
        key: Key,
        generation: u32,
        moment: u64,
        keep: u8,
    ) -> Result<(), NoMemory>
        requires families { ascends by_family self.old.families.items ≡ true }
        requires number { is_numbered generation ≡ true }
        requires absent { has generation (files_of key (rows_of self.old.families.items)) ≡ false }
        ensures row_changes { OnOk result (self.new.row_changes.items
            ≡ self.old.row_changes.items
            ++ changes.Add (new_row key keep moment (row_of_view source.entry).file.bytes generation) ∷ []) }
        ensures pairs { OnOk result (self.new.pairs.items
            ≡ self.old.pairs.items ++ (record {
              source = full_of (row_of_view source.entry);
              target = record { key = key; generation = generation };
            }) ∷ []) }
        ensures families { OnOk result (rows_of self.new.families.items
            ≡ added keep (blank (new_row key keep moment (row_of_view source.entry).file.bytes generation))
            (rows_of self.old.families.items)) }
        ensures ascend { OnOk result (ascends by_family self.new.families.items ≡ true) }
    {
        let row = Row::new(
            key,
            keep,
            generation,
            moment,
            source.file.bytes.copy(alloc)?,
        );
        add(&mut self.families, alloc, row.blank(alloc))?;
        self.pairs.push(NamePair {
            source: source.full_name(),
            target: row.full_name(),
        })?;
        self.row_changes.push(RowChange::Add(row))?;
        Ok(())
    }
}

// The sources at these places are copied, one after the other, and then are read. Copies go to the target's directory
// alone, and what is made does not depend on who has read what.
fn copies(
    alloc: Global,
    directories: &Directories,
    files: &Files,
    positions: &[u16],
    to: &Place,
    moment: u64,
    reading: Reading,
) -> Result<Ready, Refusal>
    requires rows { AreRows directories.now.list files.now.rows }
    requires within { list_all (λ at. nat_lt at (length files.now.rows)) positions.now ≡ true }
    requires few { length positions.now ≤ ROW_LIMIT }
    requires target { IsTarget to.now directories.now.list }
    requires retention { nat_le (retention_of to.now.directory directories.now.list) RETENTION_LIMIT ≡ true }
    requires reading { is_reading_within (Some reading) ≡ true }
    ensures made { let sources = elements_at files.now.rows positions.now in
        let retention = retention_of to.now.directory directories.now.list in
        (rows : List Filed) → AreAlike files.now.rows rows → AreRows directories.now.list rows
        → IfOk result
        (IsMade directories.now.list rows (all_copied retention moment to.now sources rows) (Some reading)) }
    ensures refused { let sources = elements_at files.now.rows positions.now in
        let retention = retention_of to.now.directory directories.now.list in
        (rows : List Filed) → AreAlike files.now.rows rows → AreRows directories.now.list rows
        → IfErr result (IsRefused (all_copied retention moment to.now sources rows)) }
{
    let directory = to.directory.as_bytes();
    let retention = directories.retention_of(to.directory.as_str());
    let mut simulation = match Simulation::new(alloc, files, directory, directory) {
        Ok(simulation) => simulation,
        Err(NoMemory) => return Err(Refusal::NoMemory),
    };
    let mut count = files.len();
    let mut bytes = files.total();
    for at in positions {
        let source = files.row_at(usize::from(*at));
        let key = to.key_from(&source.key());
        let size = source.file.bytes.len();
        let number = numbered(&simulation.families, &key, to.generation);
        let generation = match admitted(number, count, bytes, size) {
            Ok(generation) => generation,
            Err(code) => return Err(Refusal::Code(code)),
        };
        let keep = keep_at(&simulation.families, &key, retention);
        match simulation.copy(alloc, source, key, generation, moment_of(moment), keep) {
            Ok(()) => {
                count += 1;
                bytes += size;
            }
            Err(NoMemory) => return Err(Refusal::NoMemory),
        }
    }
    Ok(simulation.ready(alloc, Some(reading)))
}

impl Store {
    // Files are copied.
    pub(crate) fn copy(&self, from: &Place, to: &Place, moment: u64) -> Result<Ready, Refusal>
        requires { MayPlan (plans.Copy from.now to.now) self.now.state }
        ensures ready { IfOk result (λ ready.
            planned (plans.Copy from.now to.now) moment self.now.state ≡ Ok (done_on self.now.state ready)) }
        ensures sound { IfOk result (λ ready. IsWellFormed (applied ready self.now.state)) }
        ensures doable { IfOk result (λ ready.
            are_doable (rows_read ready.reading self.now.state) ready.row_changes ≡ true) }
        ensures refused { IfErr result (IsRefused (planned (plans.Copy from.now to.now) moment self.now.state)) }
    {
        let positions = self.positions(from, from.flags.deleted);
        let reading = Reading {
            files: from.copy(),
            moment: moment_of(moment),
        };
        copies(
            self.alloc,
            &self.directories,
            &self.files,
            &positions,
            to,
            moment,
            reading,
        )
    }
}
