//! Laws of places.
ghost use Rattle.std.specs.Prelude.{◌≡◌, ℕ, List, Some, slice_get};
ghost use Rattle.cm_synopsis.specs.CommandView.{CommandView};
ghost use Rattle.cm_synopsis.specs.Ways.{Way};
ghost use Rattle.cm_language.specs.Groups.{group_of, reached};
ghost use Rattle.cm_language.specs.Lines.{place_after, positions_after, positions_in, site_at};
ghost use Rattle.cm_language.specs.Places.{Site, places, starts};
ghost use Rattle.cm_language.specs.declared.place.Exit.{Exit};
ghost use Rattle.cm_language.specs.declared.place.Position.{Position};
ghost use Rattle.cm_language.specs.declared.place.TheConstants.{PLACE_LIMIT};

/// A language has at most 1,023 places.
pub fn these_are_the_numbers()
    ensures places { PLACE_LIMIT ≡ 1023 }
{}

/// Behind the start of the commands, and behind any words of a line, a line is at exactly one place or at none: the
/// place has the positions where the line may be by the links of the commands, and there is none where it may be
/// nowhere. A word is told by a position at which it is read.
pub fn a_place_is_where_a_line_may_be()
    ensures { (commands : List CommandView) → (ways : List Way) → (made : List Site)
        → places commands ways ≡ Some made → (labels : List Position)
        → positions_in (site_at made (place_after commands ways made (Some 0) labels))
        ≡ positions_after commands ways (starts commands) labels }
{}

/// An exit leads to the place whose positions are what may come behind its own place and reads as it does.
pub fn an_exit_leads_to_its_group()
    ensures { (commands : List CommandView) → (ways : List Way) → (made : List Site)
        → places commands ways ≡ Some made → (at number : ℕ) → (place : Site) → (exit : Exit)
        → slice_get made at ≡ Some place → slice_get place.exits number ≡ Some exit
        → positions_in (site_at made (Some exit.place))
        ≡ group_of commands ways (reached ways place.positions) exit.position }
{}

/// No two places have the same positions.
pub fn places_are_all_different()
    ensures { (commands : List CommandView) → (ways : List Way) → (made : List Site)
        → places commands ways ≡ Some made → (at number : ℕ) → (place other : Site)
        → slice_get made at ≡ Some place → slice_get made number ≡ Some other
        → place.positions ≡ other.positions → at ≡ number }
{}
