//! Laws of generations.
ghost use Rattle.std.specs.Prelude.{◌≡◌, ◌<◌, ◌≤◌, ◌-◌, ◌↔◌, ◌++◌, ℕ, List, [], ◌∷◌, Some, false, true, Contains, drop, find, length, map, min};
ghost use Rattle.ex_generations.specs.declared.file.File.{File};
ghost use Rattle.ex_generations.specs.declared.file.TheConstants.{FILE_LIMIT, GENERATION_LIMIT, PAGE_BYTES};
ghost use Rattle.ex_generations.specs.Generations.{IsAscending, has, inserted, is_generation, marked_as, next_generation, unmarked, without};
ghost use Rattle.ex_generations.specs.Retention.{added, keep_for, live, retained};

/// Retention keeps the highest: of the files that were unmarked, the last `keep` stay so, and no other.
pub fn the_highest_stay_unmarked()
    ensures { (keep : ℕ) → 0 < keep → (files : List File)
        → unmarked (retained keep files) ≡ drop (live files - keep) (unmarked files) }
{}

/// Retention leaves `keep` files unmarked, and fewer only where there were fewer.
pub fn at_most_so_many_stay_unmarked()
    ensures { (keep : ℕ) → 0 < keep → (files : List File)
        → live (retained keep files) ≡ min keep (live files) }
{}

/// Retention changes nothing of a file but its mark.
pub fn retention_changes_marks_alone()
    ensures { (keep : ℕ) → (files : List File)
        → map (marked_as true) (retained keep files) ≡ map (marked_as true) files }
{}

/// A file of the next generation goes after all others.
pub fn the_next_generation_goes_last()
    ensures { (file : File) → (files : List File) → file.generation ≡ next_generation files
        → inserted file files ≡ files ++ file ∷ [] }
{}

/// A file that is added is among the others, which stay as they were.
pub fn an_added_file_leaves_the_others()
    ensures { (file : File) → (files : List File) → IsAscending 0 files → has file.generation files ≡ false
        → (without file.generation (inserted file files) ≡ files)
        × (find (is_generation file.generation) (inserted file files) ≡ Some file) }
{}

/// With a file added the generations still ascend.
pub fn adding_keeps_the_order()
    ensures { (file : File) → (files : List File) → IsAscending 0 files
        → 0 < file.generation → file.generation ≤ GENERATION_LIMIT → length file.bytes ≤ FILE_LIMIT
        → has file.generation files ≡ false → IsAscending 0 (added file files) }
{}

/// The next generation keeps as many as the highest, marked or not, and with no file as many as were handed in.
pub fn the_highest_says_how_many_the_next_keeps()
    ensures others { (keep : ℕ) → (files : List File) → (file : File)
        → keep_for keep (files ++ file ∷ []) ≡ file.keep }
    ensures none { (keep : ℕ) → keep_for keep [] ≡ keep }
{}

/// What expunging keeps are the files that are not marked.
pub fn expunging_keeps_the_unmarked()
    ensures { (file : File) → (files : List File)
        → Contains (unmarked files) file ↔ (Contains files file × (file.deleted ≡ false)) }
{}

/// The numbers: the highest generation, the most bytes of a file, and the bytes of a page.
pub fn these_are_the_numbers()
    ensures generations { GENERATION_LIMIT ≡ 131071 }
    ensures bytes { FILE_LIMIT ≡ 65536 }
    ensures pages { PAGE_BYTES ≡ 2560 }
{}
