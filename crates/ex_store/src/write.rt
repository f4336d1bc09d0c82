// A file is written.
ghost use Rattle.std.specs.Prelude.{◌≡◌, true, [], ◌∷◌, IfOk, IfErr, None, Ok};
ghost use Rattle.ex_store.specs.declared.plan.Plan.TheVariants as plans;
ghost use Rattle.ex_store.specs.declared.ready.RowChange.TheVariants as changes;
ghost use Rattle.ex_store.specs.Plan.{IsRefused, MayPlan, planned};
ghost use Rattle.ex_store.specs.Ready.{applied, are_doable, done_on, is_lawful, of_files, rows_read};
ghost use Rattle.ex_store.specs.Rows.{full_of};
ghost use Rattle.ex_store.specs.WellFormed.{IsWellFormed};

use crate::adding::admitted;
use crate::copy::moment_of;
use crate::{NamePair, Place, Ready, Refusal, Row, RowChange, Store};
use cm_fields::Code;
use cm_io::NoMemory;
use ex_generations::Bytes;
use std::alloc::Global;

// One row is added, which is its own source.
fn one_add(alloc: Global, row: Row) -> Result<Ready, NoMemory>
    requires { is_lawful (changes.Add row) ≡ true }
    ensures { IfOk result (λ ready. ready
        ≡ of_files None (changes.Add row ∷ []) ((record { source = full_of row; target = full_of row }) ∷ [])) }
{
    let mut pairs = Vec::new(alloc);
    pairs.push(NamePair {
        source: row.full_name(),
        target: row.full_name(),
    })?;
    let mut row_changes = Vec::new(alloc);
    row_changes.push(RowChange::Add(row))?;
    Ok(Ready::of_files(alloc, None, row_changes, pairs))
}

impl Store {
    // A file is written.
    pub(crate) fn write(&self, to: &Place, bytes: Bytes, moment: u64) -> Result<Ready, Refusal>
        requires { MayPlan (plans.Write to.now bytes) self.now.state }
        ensures ready { IfOk result (λ ready.
            planned (plans.Write to.now bytes) moment self.now.state ≡ Ok (done_on self.now.state ready)) }
        ensures sound { IfOk result (λ ready. IsWellFormed (applied ready self.now.state)) }
        ensures doable { IfOk result (λ ready.
            are_doable (rows_read ready.reading self.now.state) ready.row_changes ≡ true) }
        ensures refused { IfErr result (IsRefused (planned (plans.Write to.now bytes) moment self.now.state)) }
    {
        if to.lacks_name() {
            return Err(Refusal::Code(Code::NameNeeded));
        }
        let key = to.own_key();
        let number = self.files.numbered(&key, to.generation);
        let files = self.files.len();
        let all = self.files.total();
        let generation = match admitted(number, files, all, bytes.len()) {
            Ok(generation) => generation,
            Err(code) => return Err(Refusal::Code(code)),
        };
        let retention = self.directories.retention_of(to.directory.as_str());
        let keep = self.files.keep_at(&key, retention);
        let row = Row::new(key, keep, generation, moment_of(moment), bytes);
        match one_add(self.alloc, row) {
            Ok(ready) => Ok(ready),
            Err(NoMemory) => Err(Refusal::NoMemory),
        }
    }
}
