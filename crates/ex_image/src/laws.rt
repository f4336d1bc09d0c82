//! Laws of the image.
ghost use Rattle.std.specs.Prelude.{◌≡◌, ◌<◌, ◌↔◌, ◌⊎◌, ◌++◌, ℕ, List, [], Option, Some, codes, get_or, length, map, true};
ghost use Rattle.cm_io.specs.declared.status.Kind.{Kind};
ghost use Rattle.ex_image.specs.declared.version.Version.TheVariants as versions;
ghost use Rattle.ex_image.specs.Grammar.{FirstBad, IsImage, IsImageIn, are_told_in};
ghost use Rattle.ex_image.specs.Image.{Saves, image_text, text_in};
ghost use Rattle.cm_io.specs.declared.sink.Put.TheVariants.{Done};
ghost use Rattle.ex_generations.specs.declared.file.Remark.TheVariants as remarks;
ghost use Rattle.ex_store.specs.declared.row.Row.{Row};
ghost use Rattle.ex_store.specs.Draft.{kept_by_directories};
ghost use Rattle.ex_store.specs.Rows.{with_remark};
ghost use Rattle.ex_store.specs.State.{State, first_state, retention_of};
ghost use Rattle.ex_store.specs.WellFormed.{IsWellFormed};

/// The image of a new store.
pub fn a_new_store_has_this_image()
    ensures { image_text first_state ≡ codes "EXEC20 2\nD OPERATOR 1\nC OPERATOR\nE\n" }
{}

/// An image is one of either version: in version 2 of the state that its records say, in version 1 of that state
/// migrated.
pub fn an_image_is_of_either_version()
    ensures { (bytes : List ℕ) → (state : State) → IsImage bytes state
        ↔ (IsImageIn versions.Two bytes state
        ⊎ ((said : State) × IsImageIn versions.One bytes said × (state ≡ kept_by_directories said))) }
{}

/// The bytes are an image in version 2 of a state exactly where the state is well formed and they are its text: so each
/// such state has one. They are one in version 1 exactly where they are the text, in version 1, of a well-formed state
/// whose files keep all generations and were not read.
pub fn an_image_is_the_text_of_its_state()
    ensures second { (bytes : List ℕ) → (state : State)
        → IsImageIn versions.Two bytes state ↔ (IsWellFormed state × (bytes ≡ image_text state)) }
    ensures first { (bytes : List ℕ) → (state : State) → IsImageIn versions.One bytes state
        ↔ (IsWellFormed state × (are_told_in versions.One state.rows ≡ true) × (bytes ≡ text_in versions.One state)) }
{}

/// An image is of a well-formed state.
pub fn an_image_is_of_a_well_formed_state()
    ensures { (bytes : List ℕ) → (state : State) → IsImage bytes state → IsWellFormed state }
{}

/// Migrating gives each file the count of its directory, and keeps all else.
pub fn a_migration_keeps_all_else()
    ensures lists { (said : State) → kept_by_directories said
        ≡ record said { rows = (kept_by_directories said).rows } }
    ensures rows { (said : State)
        → map (with_remark (remarks.Keep 0)) (kept_by_directories said).rows
        ≡ map (with_remark (remarks.Keep 0)) said.rows }
    ensures keeps { (said : State) → (i : ℕ) → (d : Row) → i < length said.rows
        → (get_or (kept_by_directories said).rows i d).file.keep
        ≡ retention_of (get_or said.rows i d).key.directory said.directories }
{}

/// What a store is written as is read as its state, and as no other.
pub fn what_is_written_is_read()
    ensures { (state : State) → (before : Option (List ℕ)) → (bytes : List ℕ) → IsWellFormed state
        → Saves (image_text state) before (Some bytes) Done
        → IsImage bytes state × ((other : State) → IsImage bytes other → other ≡ state) }
{}

/// Bytes are an image of one state at most.
pub fn an_image_is_of_one_state()
    ensures { (bytes : List ℕ) → (state other : State) → IsImage bytes state → IsImage bytes other → state ≡ other }
{}

/// An image has fewer than 16,777,216 bytes.
pub fn an_image_is_small()
    ensures { (bytes : List ℕ) → (state : State) → IsImage bytes state → length bytes < 16777216 }
{}

/// No image begins another: nothing may be after an image.
pub fn no_image_begins_another()
    ensures { (bytes more : List ℕ) → (state other : State)
        → IsImage bytes state → IsImage (bytes ++ more) other → more ≡ [] }
{}

/// Bytes are an image, or there is a first place where they go wrong.
pub fn bytes_are_an_image_or_go_wrong()
    ensures { (bytes : List ℕ)
        → ((state : State) × IsImage bytes state) ⊎ ((place : ℕ) × (kind : Kind) × FirstBad bytes place kind) }
{}

/// An image goes wrong nowhere.
pub fn no_image_goes_wrong()
    ensures { (bytes : List ℕ) → (state : State) → (place : ℕ) → (kind : Kind)
        → IsImage bytes state → FirstBad bytes place kind → ⊥ }
{}

/// There is one first place at most where bytes go wrong, and one kind.
pub fn bytes_first_go_wrong_once()
    ensures { (bytes : List ℕ) → (place other : ℕ) → (kind fault : Kind)
        → FirstBad bytes place kind → FirstBad bytes other fault → (place ≡ other) × (kind ≡ fault) }
{}
