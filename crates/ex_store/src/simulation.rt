// A plan over files, as far as it has come.
ghost use Rattle.std.specs.Prelude.{◌≡◌, ◌≤◌, [], true, length, map, IfOk};
ghost use Rattle.std.specs.List.{list_all};
ghost use Rattle.cm_lists.specs.Ascent.{ascends};
ghost use Rattle.ex_store.specs.declared.limits.TheConstants.{ROW_LIMIT};
ghost use Rattle.ex_store.specs.Families.{by_family, rows_of};
ghost use Rattle.ex_store.specs.Ready.{is_lawful, is_reading_within, of_files};
ghost use Rattle.ex_store.specs.Rows.{blank, rows_in_either};

use crate::family::FamilyBox;
use crate::files::Files;
use crate::ready::Reading;
use crate::{NamePair, Ready, RowChange};
use cm_io::NoMemory;
use std::alloc::Global;

// What is to be done, from which file to which one each goes, and the files of the directories that the plan touches,
// by family, as they stand then, without their bytes, as if nobody had read them.
#[derive(Drop)]
pub(crate) struct Simulation {
    pub(crate) row_changes: Vec<RowChange>,
    pub(crate) pairs: Vec<NamePair>,
    pub(crate) families: Vec<FamilyBox>,
}

impl Simulation {
    // Nothing is done yet, with the files of two directories: of files that go, and of files that come.
    pub(crate) fn new(
        alloc: Global,
        files: &Files,
        from: &[u8],
        to: &[u8],
    ) -> Result<Simulation, NoMemory>
        ensures row_changes { IfOk result (λ simulation. simulation.row_changes.items ≡ []) }
        ensures pairs { IfOk result (λ simulation. simulation.pairs.items ≡ []) }
        ensures families { IfOk result (λ simulation.
            rows_of simulation.families.items ≡ map blank (rows_in_either from.now to.now files.now.rows)) }
        ensures ascend { IfOk result (λ simulation. ascends by_family simulation.families.items ≡ true) }
    {
        Ok(Simulation {
            row_changes: Vec::new(alloc),
            pairs: Vec::new(alloc),
            families: files.blanks(alloc, from, to)?,
        })
    }

    // All that is to be done, where the files of a place are read before.
    pub(crate) fn ready(self, alloc: Global, reading: Option<Reading>) -> Ready
        requires within { is_reading_within reading ≡ true }
        requires few { length self.pairs.items ≤ ROW_LIMIT }
        requires lawful { list_all is_lawful self.row_changes.items ≡ true }
        ensures { result ≡ of_files reading self.row_changes.items self.pairs.items }
    {
        let Simulation {
            row_changes,
            pairs,
            ..
        } = self;
        Ready::of_files(alloc, reading, row_changes, pairs)
    }
}
