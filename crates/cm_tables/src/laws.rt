//! Laws of tables and of recognition.
ghost use Rattle.std.specs.Prelude.{◌≡◌, ◌≢◌, ◌≤◌, ◌+◌, ◌*◌, ◌^◌, ℕ, List, [], ◌∷◌, ◌++◌, None, Some, drop, length, map, slice_get, true};
ghost use Rattle.std.specs.Io.{StartsWith};
ghost use Rattle.cm_text.specs.BeginLaws.{lower};
ghost use Rattle.cm_text.specs.Case.{begins_with, equals};
ghost use Rattle.cm_tables.specs.Common.{AllBeginWith, common, rests};
ghost use Rattle.cm_tables.specs.Look.{candidates, found_at, is_recognised, look};
ghost use Rattle.cm_tables.specs.Order.{table_fault};
ghost use Rattle.cm_tables.specs.declared.entry.Entry.{Entry};
ghost use Rattle.cm_tables.specs.declared.fault.TheConstants.{ENTRY_LIMIT};
ghost use Rattle.cm_tables.specs.declared.table.Look.TheVariants as looks;

/// With no regard to the case of letters, after an atom all entries that it may abbreviate go on with their common
/// text, and with no longer one. The first of them goes on with it as it is. With no such entry that text is empty.
pub fn the_common_text_is_the_longest()
    ensures shared { (table : List Entry) → (atom : List ℕ)
        → AllBeginWith (map lower (rests table atom)) (lower (common table atom)) }
    ensures longest { (table : List Entry) → (atom : List ℕ) → (front : List ℕ) → candidates table atom ≢ []
        → AllBeginWith (map lower (rests table atom)) front → StartsWith (lower (common table atom)) front }
    ensures first { (table : List Entry) → (atom text : List ℕ) → (more : List (List ℕ))
        → rests table atom ≡ text ∷ more → StartsWith text (common table atom) }
    ensures none { (table : List Entry) → (atom : List ℕ) → candidates table atom ≡ [] → common table atom ≡ [] }
{}

/// An atom that is found is a beginning of an entry that may be abbreviated, with no regard to the case of letters.
/// With what is missing of that entry's text it is found as that entry itself, and exactly, in whatever case its
/// letters are.
pub fn a_completed_atom_is_its_entry()
    ensures recognised { (table : List Entry) → (atom : List ℕ) → (place : ℕ) → (entry : Entry)
        → table_fault table ≡ None → found_at (look table atom) ≡ Some place → slice_get table place ≡ Some entry
        → is_recognised entry.flag ≡ true }
    ensures begins { (table : List Entry) → (atom : List ℕ) → (place : ℕ) → (entry : Entry)
        → table_fault table ≡ None → found_at (look table atom) ≡ Some place → slice_get table place ≡ Some entry
        → begins_with entry.text atom ≡ true }
    ensures exact { (table : List Entry) → (atom : List ℕ) → (place : ℕ) → (entry : Entry)
        → table_fault table ≡ None → found_at (look table atom) ≡ Some place → slice_get table place ≡ Some entry
        → look table (atom ++ drop (length atom) entry.text) ≡ looks.Exact place }
    ensures in_any_case { (table : List Entry) → (atom : List ℕ) → (place : ℕ) → (entry : Entry)
        → table_fault table ≡ None → found_at (look table atom) ≡ Some place → slice_get table place ≡ Some entry
        → (rest : List ℕ) → equals (drop (length atom) entry.text) rest ≡ true
        → look table (atom ++ rest) ≡ looks.Exact place }
{}

/// A look-up asks at most 11 times in its search, since a table has at most 1,024 entries: so often as their number
/// has binary digits, which is what `look_counted` ensures.
pub fn a_look_up_asks_11_times()
    ensures { (table : List Entry) → (probes : ℕ) → table_fault table ≡ None → 2 ^ probes ≤ 2 * length table + 1
        → probes ≤ 11 }
{}

/// A table has at most 1,024 entries.
pub fn these_are_the_numbers()
    ensures entries { ENTRY_LIMIT ≡ 1024 }
{}
