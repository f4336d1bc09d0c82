// Room for the files that a plan puts under each family.
ghost use Rattle.std.specs.Prelude.{◌≡◌, ◌<◌, ◌≤◌, ◌+◌, ◌^◌, true, length, option_copied, OnOk, if◌then◌else◌};
ghost use Rattle.std.specs.List.{list_all};
ghost use Rattle.std.specs.Ordering.{is_eq};
ghost use Rattle.cm_lists.specs.Ascent.{ascends};
ghost use Rattle.ex_store.specs.declared.key.Key.{Key as Named};
ghost use Rattle.ex_store.specs.Families.{HasRoom, EachHasRoom, by_family, room_at, rooms_of, rows_of, without_demand, demand_at};
ghost use Rattle.ex_store.specs.Ready.{are_doable, count_under, is_doable, is_lawful, key_put, moved, puts_under, rows_after, rows_after_all};
ghost use Rattle.ex_store.specs.Rows.{by_key, files_of};
ghost use Rattle.ex_store.specs.WellFormed.{is_numbered};
ghost use Rattle.ex_store.specs.declared.ready.RowChange.TheVariants.{Move};

use crate::family::{FamilyBox, enter, fill, put, remove};
use crate::sweep::drop_empty;
use crate::{Key, NamePair, Row, RowChange};
use cm_io::NoMemory;
use std::alloc::Global;

impl RowChange {
    // The directory, name and type under which it puts a file.
    fn key(&self) -> Option<&Key>
        ensures { option_copied result ≡ key_put self.now }
    {
        match self {
            RowChange::Add(row) => Some(&row.key),
            RowChange::Move(pair) => Some(&pair.target.key),
            RowChange::Fill { .. } => None,
        }
    }
}

impl FamilyBox {
    // No file is to be put under it.
    fn clear_demand(&mut self)
        ensures { self.new ≡ record self.old { demand = 0 } }
    {
        self.family.demand = 0;
    }

    // One more file is to be put under it, and there is room for all that are.
    fn reserve_one(&mut self) -> Result<(), NoMemory>
        requires { self.old.demand < 2 ^ 63 }
        ensures key { self.new.key ≡ self.old.key }
        ensures files { self.new.gens.files ≡ self.old.gens.files }
        ensures demand { OnOk result (self.new.demand ≡ self.old.demand + 1) }
        ensures room { OnOk result (HasRoom self.new) }
    {
        let demand = self.family.demand + 1;
        self.family.demand = demand;
        self.family.gens.reserve(demand)?;
        Ok(())
    }
}

// No file is to be put under any family.
fn clear_demand(families: &mut Vec<FamilyBox>)
    ensures { families.new.items ≡ without_demand families.old.items }
{
    for family in families.iter_mut() {
        family.clear_demand();
    }
}

// One more file is to be put under a family, which is entered where it is not there yet.
fn reserve_one(families: &mut Vec<FamilyBox>, alloc: Global, key: &Key) -> Result<(), NoMemory>
    requires families { ascends by_family families.old.items ≡ true }
    requires few { demand_at key.now families.old.items < 2 ^ 63 }
    requires room { EachHasRoom families.old.items }
    ensures rows { rows_of families.new.items ≡ rows_of families.old.items }
    ensures ascend { ascends by_family families.new.items ≡ true }
    ensures demand { OnOk result ((other : Named) → demand_at other families.new.items
        ≡ demand_at other families.old.items + (if is_eq (by_key key.now other) then 1 else 0)) }
    ensures room { OnOk result (EachHasRoom families.new.items) }
    ensures lean { length families.new.items ≤ length families.old.items + 1 }
{
    let at = enter(families, alloc, key)?;
    families[at].reserve_one()?;
    Ok(())
}

// Makes room for what some changes put under each family. Families without files that an earlier plan left are dropped.
pub(crate) fn make_room(
    families: &mut Vec<FamilyBox>,
    alloc: Global,
    changes: &[RowChange],
) -> Result<(), NoMemory>
    requires { ascends by_family families.old.items ≡ true }
    ensures rows { rows_of families.new.items ≡ rows_of families.old.items }
    ensures ascend { ascends by_family families.new.items ≡ true }
    ensures room { OnOk result ((key : Named) → 0 < count_under key changes.now
        → length (files_of key (rows_of families.old.items)) + count_under key changes.now
        ≤ room_at key (rooms_of families.new.items)) }
    ensures lean { OnOk result (length families.new.items ≤ length (rows_of families.old.items) + length changes.now) }
{
    drop_empty(families);
    clear_demand(families);
    for change in changes {
        let Some(key) = change.key() else {
            continue;
        };
        reserve_one(families, alloc, key)?;
    }
    Ok(())
}

// A file goes to another family that has room for it, and then as many unmarked generations are kept as it says.
fn rename(families: &mut [FamilyBox], pair: NamePair)
    requires families { ascends by_family families.old ≡ true }
    requires doable { is_doable (rows_of families.old) (Move pair) ≡ true }
    requires numbered { is_numbered pair.target.generation ≡ true }
    requires room { let key = pair.target.key in
        length (files_of key (rows_of families.old)) < room_at key (rooms_of families.old) }
    ensures rows { rows_of families.new ≡ moved pair (rows_of families.old) }
    ensures ascend { ascends by_family families.new ≡ true }
    ensures rooms { rooms_of families.new ≡ rooms_of families.old }
{
    let NamePair { source, target } = pair;
    if let Some(file) = remove(families, &source) {
        put(families, Row::with_name(target, file));
    }
}

// One change, where there is room for what it puts.
fn change_family(families: &mut [FamilyBox], change: RowChange)
    requires families { ascends by_family families.old ≡ true }
    requires lawful { is_lawful change ≡ true }
    requires doable { is_doable (rows_of families.old) change ≡ true }
    requires room { (key : Named) → puts_under key change ≡ true
        → length (files_of key (rows_of families.old)) < room_at key (rooms_of families.old) }
    ensures rows { rows_of families.new ≡ rows_after (rows_of families.old) change }
    ensures ascend { ascends by_family families.new ≡ true }
    ensures rooms { rooms_of families.new ≡ rooms_of families.old }
{
    match change {
        RowChange::Add(row) => put(families, row),
        RowChange::Move(pair) => rename(families, pair),
        RowChange::Fill {
            target,
            moment,
            bytes,
        } => fill(families, &target, moment, bytes),
    }
}

// All changes, one after the other, where there is room for what they put.
pub(crate) fn change_families(families: &mut [FamilyBox], changes: Vec<RowChange>)
    requires families { ascends by_family families.old ≡ true }
    requires lawful { list_all is_lawful changes.items ≡ true }
    requires doable { are_doable (rows_of families.old) changes.items ≡ true }
    requires room { (key : Named) → 0 < count_under key changes.items
        → length (files_of key (rows_of families.old)) + count_under key changes.items
        ≤ room_at key (rooms_of families.old) }
    ensures rows { rows_of families.new ≡ rows_after_all (rows_of families.old) changes.items }
    ensures ascend { ascends by_family families.new ≡ true }
    ensures rooms { rooms_of families.new ≡ rooms_of families.old }
{
    for change in changes {
        change_family(families, change);
    }
}
