// A row of the screen.
ghost use Rattle.std.specs.Prelude.{◌≡◌, ◌-◌, ◌≤◌, length, slice_set};
ghost use Rattle.std.specs.List.{suffix_len};
ghost use Rattle.tt_screen.specs.ScreenText.{is_space, row_text};

use std::marker::Model;

/// How many cells a row has.
pub const WIDTH: usize = 80;

/// A row of the screen. Contracts see its cells.
#[derive(Debug, Drop)]
pub struct Row {
    cells: [u8; WIDTH],
}

impl Model for Row {
    ghost use Rattle.std.specs.Prelude.{◌≡◌, ℕ, List, length};

    ghost Value = { List ℕ };

    ghost view = { λ row. row.cells };
}

impl Default for Row {
    ghost use Rattle.std.specs.Prelude.{◌≡◌};
    ghost use Rattle.tt_screen.specs.Grid.{blank_row};

    ghost is_default = { λ row. row ≡ blank_row };

    /// A row of spaces.
    #[tactic(auto, unfolding(crate::specs::Grid::blank_row))]
    fn default() -> Row {
        Row {
            cells: [b' '; WIDTH],
        }
    }
}

impl Row {
    /// The cells.
    pub fn cells(&self) -> &[u8; WIDTH]
        ensures { result.now ≡ self.now }
    {
        &self.cells
    }

    // Puts a byte into a cell. Past the last cell it is lost.
    pub(crate) fn put(&mut self, column: usize, byte: u8)
        ensures { self.new ≡ slice_set self.old column byte }
    {
        if column < WIDTH {
            self.cells[column] = byte;
        }
    }

    /// The cells without the spaces at the end.
    pub fn text(&self) -> &[u8]
        ensures { result.now ≡ row_text self.now }
    {
        &self.cells[..WIDTH - spaces_at_end(&self.cells)]
    }
}

fn spaces_at_end(cells: &[u8]) -> usize
    ensures value { result ≡ suffix_len is_space cells.now }
    ensures within { result ≤ length cells.now }
{
    cells.iter().rev().take_while(|cell| **cell == b' ').count()
}
