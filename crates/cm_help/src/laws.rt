//! Laws of help.
ghost use Rattle.std.specs.Prelude.{◌≡◌, ◌+◌, ℕ, List, filter, length, take, true};
ghost use Rattle.std.specs.List.{list_all};
ghost use Rattle.cm_text.specs.Case.{begins_with};
ghost use Rattle.cm_help.specs.Names.{listed, others};
ghost use Rattle.cm_help.specs.declared.names.TheConstants.{NAMES_LIMIT, ROW_SIZE};

/// Each name that `?` lists begins with what is typed. Those that do are listed in the order of the program, and all
/// that are not listed are counted.
pub fn the_names_that_match_are_listed()
    ensures each { (atom : List ℕ) → (names : List (List ℕ))
        → list_all (λ (name : List ℕ). begins_with name atom) (listed atom names) ≡ true }
    ensures first { (atom : List ℕ) → (names : List (List ℕ))
        → take (length (listed atom names)) (filter (λ (name : List ℕ). begins_with name atom) names)
        ≡ listed atom names }
    ensures all { (atom : List ℕ) → (names : List (List ℕ))
        → length (listed atom names) + others atom names
        ≡ length (filter (λ (name : List ℕ). begins_with name atom) names) }
{}

/// The most names that are listed, and the most bytes of a row of them.
pub fn these_are_the_numbers()
    ensures names { NAMES_LIMIT ≡ 60 }
    ensures row { ROW_SIZE ≡ 78 }
{}
