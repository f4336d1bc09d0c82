//! Laws of the screen.
ghost use Rattle.std.specs.Prelude.{◌≡◌, ◌^◌};
ghost use Rattle.cm_io.specs.Display.{IsDisplay};
ghost use Rattle.tt_screen.specs.Grid.{feed};
ghost use Rattle.tt_screen.specs.Holds.{Holds};
ghost use Rattle.tt_screen.specs.declared.program.TheConstants.{KEY_LIMIT};
ghost use Rattle.tt_screen.specs.declared.row.TheConstants.{WIDTH};
ghost use Rattle.tt_screen.specs.declared.screen.TheConstants.{KEPT_ROWS};

/// The numbers of the screen and of a run: the cells of a row, the rows that are kept, and the most bytes that a run
/// takes.
pub fn these_are_the_numbers()
    ensures width { WIDTH ≡ 80 }
    ensures rows { KEPT_ROWS ≡ 24 }
    ensures keys { KEY_LIMIT ≡ 2 ^ 24 }
{}

/// The screen is a display: where its last row holds a text, printed bytes go after it, a bell leaves it, and rubouts
/// take bytes off its end, for texts of every length. So it shows prompt and line of whatever keeps them on displays.
pub fn a_plain_screen_is_a_display()
    ensures { IsDisplay feed Holds }
{}
