// Files are given other names.
ghost use Rattle.std.specs.Prelude.{ℕ, ◌≡◌, ◌≤◌, true, false, [], ◌∷◌, ◌++◌, length, nat_lt, IfOk, IfErr, IfSome, None, OnOk, Ok, option_map};
ghost use Rattle.std.specs.List.{list_all};
ghost use Rattle.cm_lists.specs.Ascent.{ascends};
ghost use Rattle.ex_generations.specs.declared.file.TheConstants.{FILE_LIMIT};
ghost use Rattle.ex_generations.specs.Generations.{has};
ghost use Rattle.ex_store.specs.Views.{row_of_view};
ghost use Rattle.ex_store.specs.declared.limits.TheConstants.{ROW_LIMIT};
ghost use Rattle.ex_store.specs.declared.plan.Plan.TheVariants as plans;
ghost use Rattle.ex_store.specs.declared.ready.RowChange.TheVariants as changes;
ghost use Rattle.ex_store.specs.Families.{by_family, row_under, rows_of};
ghost use Rattle.ex_store.specs.Plan.{IsRefused, IsTarget, MayPlan, may_number, planned};
ghost use Rattle.ex_store.specs.Positions.{elements_at};
ghost use Rattle.ex_store.specs.Ready.{IsMade, applied, are_doable, done_on, moved, reinserted, rows_read};
ghost use Rattle.ex_store.specs.Renaming.{AreDistinct, all_renamed, pair_for};
ghost use Rattle.ex_store.specs.Rows.{files_of, is_in};
ghost use Rattle.ex_store.specs.WellFormed.{AreRows, IsWellFormed, is_numbered};

use crate::directories::Directories;
use crate::family::{FamilyBox, add, numbered, remove};
use crate::files::Files;
use crate::simulation::Simulation;
use crate::{FullName, NamePair, Place, Ready, Refusal, Row, RowChange, RowView, Store};
use cm_io::NoMemory;
use ex_generations::File;
use std::alloc::Global;

// Adds a file that was taken out under another name, unmarked, with all else that it has.
fn reinsert(
    families: &mut Vec<FamilyBox>,
    alloc: Global,
    target: &FullName,
    file: Option<File>,
) -> Result<(), NoMemory>
    requires families { ascends by_family families.old.items ≡ true }
    requires short { IfSome file (λ file. length file.bytes ≤ FILE_LIMIT) }
    requires number { is_numbered target.now.generation ≡ true }
    requires absent { has target.now.generation (files_of target.now.key (rows_of families.old.items)) ≡ false }
    ensures rows { OnOk result (rows_of families.new.items
        ≡ reinserted target.now (rows_of families.old.items) (option_map (row_under target.now.key) file)) }
    ensures ascend { OnOk result (ascends by_family families.new.items ≡ true) }
{
    let Some(file) = file else {
        return Ok(());
    };
    add(families, alloc, Row::with_name(target.copy(), file))?;
    Ok(())
}

// A source is renamed in a simulation: it is taken out, and added under its new name. Which names it had and has.
fn simulate(
    families: &mut Vec<FamilyBox>,
    alloc: Global,
    source: RowView<'_>,
    to: &Place,
) -> Result<NamePair, Refusal>
    requires families { ascends by_family families.old.items ≡ true }
    requires number { may_number to.now.generation ≡ true }
    ensures pair { IfOk result (λ pair.
        pair_for to.now (row_of_view source.entry) (rows_of families.old.items) ≡ Ok pair) }
    ensures refused { IfErr result
        (IsRefused (pair_for to.now (row_of_view source.entry) (rows_of families.old.items))) }
    ensures numbered { IfOk result (λ pair. is_numbered pair.target.generation ≡ true) }
    ensures rows { IfOk result (λ pair. rows_of families.new.items ≡ moved pair (rows_of families.old.items)) }
    ensures ascend { IfOk result (λ pair. ascends by_family families.new.items ≡ true) }
{
    let full = source.full_name();
    let key = to.key_from(&source.key());
    let file = remove(families, &full);
    let generation = match numbered(families, &key, to.generation) {
        Ok(generation) => generation,
        Err(code) => return Err(Refusal::Code(code)),
    };
    let pair = NamePair {
        source: full,
        target: FullName { key, generation },
    };
    match reinsert(families, alloc, &pair.target, file) {
        Ok(()) => Ok(pair),
        Err(NoMemory) => Err(Refusal::NoMemory),
    }
}

impl Simulation {
    // A file goes to another name.
    fn rename(&mut self, pair: NamePair) -> Result<(), NoMemory>
        ensures row_changes { OnOk result
            (self.new.row_changes.items ≡ self.old.row_changes.items ++ changes.Move pair ∷ []) }
        ensures pairs { OnOk result (self.new.pairs.items ≡ self.old.pairs.items ++ pair ∷ []) }
        ensures families { self.new.families.items ≡ self.old.families.items }
    {
        self.pairs.push(pair.copy())?;
        self.row_changes.push(RowChange::Move(pair))?;
        Ok(())
    }
}

// The sources at these places, which are in one directory, are given other names, one after the other. This touches
// the rows of that directory and of the target's.
fn renames(
    alloc: Global,
    directories: &Directories,
    files: &Files,
    positions: &[u16],
    from: &[u8],
    to: &Place,
) -> Result<Ready, Refusal>
    requires rows { AreRows directories.now.list files.now.rows }
    requires within { list_all (λ at. nat_lt at (length files.now.rows)) positions.now ≡ true }
    requires few { length positions.now ≤ ROW_LIMIT }
    requires inside { list_all (is_in from.now) (elements_at files.now.rows positions.now) ≡ true }
    requires distinct { AreDistinct (elements_at files.now.rows positions.now) }
    requires target { IsTarget to.now directories.now.list }
    ensures made { let sources = elements_at files.now.rows positions.now in
        IfOk result (IsMade directories.now.list files.now.rows (all_renamed to.now sources files.now.rows) None) }
    ensures refused { let sources = elements_at files.now.rows positions.now in
        IfErr result (IsRefused (all_renamed to.now sources files.now.rows)) }
{
    let directory = to.directory.as_bytes();
    let mut simulation = match Simulation::new(alloc, files, from, directory) {
        Ok(simulation) => simulation,
        Err(NoMemory) => return Err(Refusal::NoMemory),
    };
    for at in positions {
        let source = files.row_at(usize::from(*at));
        let pair = match simulate(&mut simulation.families, alloc, source, to) {
            Ok(pair) => pair,
            Err(refusal) => return Err(refusal),
        };
        match simulation.rename(pair) {
            Ok(()) => {}
            Err(NoMemory) => return Err(Refusal::NoMemory),
        }
    }
    Ok(simulation.ready(alloc, None))
}

impl Store {
    // Files are given other names.
    pub(crate) fn rename(&self, from: &Place, to: &Place) -> Result<Ready, Refusal>
        requires { MayPlan (plans.Rename from.now to.now) self.now.state }
        ensures ready { IfOk result (λ ready. (moment : ℕ)
            → planned (plans.Rename from.now to.now) moment self.now.state ≡ Ok (done_on self.now.state ready)) }
        ensures sound { IfOk result (λ ready. IsWellFormed (applied ready self.now.state)) }
        ensures doable { IfOk result (λ ready.
            are_doable (rows_read ready.reading self.now.state) ready.row_changes ≡ true) }
        ensures refused { (moment : ℕ)
            → IfErr result (IsRefused (planned (plans.Rename from.now to.now) moment self.now.state)) }
    {
        let positions = self.positions(from, from.flags.deleted);
        renames(
            self.alloc,
            &self.directories,
            &self.files,
            &positions,
            from.directory.as_bytes(),
            to,
        )
    }
}
