//! Laws of the store.
ghost use Rattle.std.specs.Prelude.{ℕ, ◌≡◌, ◌&&◌, ◌↔◌, true, false, pos, List, Contains, Ok};
ghost use Rattle.cm_lists.specs.Ascent.{ascends};
ghost use Rattle.ex_generations.specs.Generations.{has};
ghost use Rattle.ex_generations.specs.Retention as generations;
ghost use Rattle.ex_store.specs.declared.key.Key.{Key};
ghost use Rattle.ex_store.specs.declared.limits.TheConstants.{AFTER_LIMIT, COPIES_LIMIT, DIRECTORY_LIMIT, FORMS, LOGICAL_LIMIT, MOMENT_LIMIT, QUEUE_LIMIT, RETENTION_LIMIT, ROW_LIMIT, STORE_LIMIT};
ghost use Rattle.ex_store.specs.declared.plan.Plan.{Plan};
ghost use Rattle.ex_store.specs.declared.row.Row.{Row};
ghost use Rattle.ex_store.specs.Plan.{MayPlan, Planned, planned};
ghost use Rattle.ex_store.specs.Rows.{added, by_row, expunged, files_of, is_in, is_of};
ghost use Rattle.ex_store.specs.State.{State, has_directory};
ghost use Rattle.ex_store.specs.WellFormed.{IsWellFormed};

/// A row that is added is one of the generations of its directory, name and type: those are as if it were added to
/// their list.
pub fn an_add_is_one_of_generations()
    ensures { (row : Row) → (rows : List Row) → ascends by_row rows ≡ true
        → has row.file.generation (files_of row.key rows) ≡ false
        → files_of row.key (added row.file.keep row rows) ≡ generations.added row.file (files_of row.key rows) }
{}

/// The files of every other directory, name and type stay as they were.
pub fn an_add_leaves_other_files()
    ensures { (row : Row) → (rows : List Row) → (key : Key) → is_of key row ≡ false
        → files_of key (added row.file.keep row rows) ≡ files_of key rows }
{}

/// What expunging takes away are the marked files of the directory, and no others.
pub fn what_is_expunged_was_marked()
    ensures { (directory : List ℕ) → (row : Row) → (rows : List Row)
        → Contains (expunged directory rows) row
        ↔ (Contains rows row × ((is_in directory row && row.file.deleted) ≡ false)) }
{}

/// No plan takes a directory away.
pub fn a_plan_keeps_the_directories()
    ensures { (plan : Plan) → (moment : ℕ) → (state : State) → (made : Planned) → planned plan moment state ≡ Ok made
        → (name : List ℕ) → has_directory name state.directories ≡ true
        → has_directory name made.state.directories ≡ true }
{}

/// What a plan makes of a state that is well formed is well formed, where the plan may be prepared.
pub fn a_plan_makes_a_well_formed_state()
    ensures { (plan : Plan) → (moment : ℕ) → (state : State) → (made : Planned) → IsWellFormed state
        → MayPlan plan state → planned plan moment state ≡ Ok made → IsWellFormed made.state }
{}

/// The numbers: of each kind the most that a store has, and of each number the greatest that one has.
pub fn these_are_the_numbers()
    ensures directories { DIRECTORY_LIMIT ≡ 64 }
    ensures retention { RETENTION_LIMIT ≡ 63 }
    ensures logical { LOGICAL_LIMIT ≡ 64 }
    ensures files { ROW_LIMIT ≡ 4096 }
    ensures bytes { STORE_LIMIT ≡ 8388608 }
    ensures moment { MOMENT_LIMIT ≡ 4102444799 }
    ensures queue { QUEUE_LIMIT ≡ 64 }
    ensures copies { COPIES_LIMIT ≡ 63 }
    ensures after { AFTER_LIMIT ≡ pos 47481 }
    ensures forms { FORMS ≡ 3 }
{}
