// The screen.
ghost use Rattle.std.specs.Prelude.{◌≡◌, ◌+◌, ◌-◌, ◌^◌, ◌<◌, ◌≤◌, Some, length, slice_get, slice_set};
ghost use Rattle.tt_screen.specs.Grid.{Grid, blank_grid, feed_byte, rows_of, with_row};
ghost use Rattle.tt_screen.specs.KeptRows.{kept_of, last_rows};

use crate::Row;
use arrayvec::ArrayVec;
use std::marker::Model;

/// How many rows are kept: the last of all that there were.
pub const KEPT_ROWS: usize = 24;

/// A plain screen of 80 columns. It takes no memory, and keeps the last 24 rows. Contracts see these, and the
/// column at which the next byte goes into the last of them.
#[derive(Debug, Drop)]
pub struct Screen {
    rows: ArrayVec<Row, KEPT_ROWS>,
    column: u32,
}

impl Model for Screen {
    ghost use Rattle.std.specs.Prelude.{◌<◌, ◌≤◌, length};
    ghost use Rattle.tt_screen.specs.declared.screen.TheConstants.{KEPT_ROWS};
    ghost use Rattle.tt_screen.specs.KeptRows.{Kept};

    ghost Value = { Kept };

    ghost view = { λ screen. record { rows = screen.rows.items; column = screen.column } };

    ghost invariant = { λ screen. (0 < length screen.rows.items) × (length screen.rows.items ≤ KEPT_ROWS) };
}

impl Screen {
    /// A screen of one blank row.
    pub fn new() -> Screen
        ensures { result ≡ kept_of blank_grid }
    {
        let mut rows = ArrayVec::new();
        rows.push(Row::default());
        Screen { rows, column: 0 }
    }

    /// Shows a byte: one from space to tilde in the cell at the column, which grows. Backspace goes back over a cell,
    /// CR to the first cell, and LF to a new row. Any other byte does nothing.
    ///
    /// A contract speaks of any screen of which these rows are kept.
    #[tactic(auto, unfolding(crate::specs::Grid::feed_byte, cm_io::specs::Display::is_printed))]
    pub fn feed(&mut self, byte: u8)
        requires { self.old.column < 2 ^ 32 - 1 }
        // [screen-row]
        ensures { (grid : Grid) → self.old ≡ kept_of grid → self.new ≡ kept_of (feed_byte grid byte) }
    {
        match byte {
            b' '..=b'~' => {
                self.put(byte);
                self.column += 1;
            }
            8 => self.column = self.column.saturating_sub(1),
            b'\r' => self.column = 0,
            b'\n' => self.begin_row(),
            _ => {}
        }
    }

    // Puts a byte into the cell at the column.
    fn put(&mut self, byte: u8)
        ensures row { (grid : Grid) → self.old ≡ kept_of grid
            → self.new ≡ kept_of (record grid { last = slice_set grid.last grid.column byte }) }
        ensures column { self.new.column ≡ self.old.column }
    {
        let Some(mut last) = self.rows.pop() else {
            return;
        };
        last.put(self.column as usize, byte);
        self.rows.push(last);
    }

    // Begins a blank row below the last.
    fn begin_row(&mut self)
        ensures { (grid : Grid) → self.old ≡ kept_of grid → self.new ≡ kept_of (with_row grid) }
    {
        self.make_room();
        self.rows.push(Row::default());
        self.column = 0;
    }

    // Drops the oldest row where there is no room for another.
    fn make_room(&mut self)
        ensures rows { (grid : Grid) → self.old ≡ kept_of grid
            → self.new.rows ≡ last_rows (KEPT_ROWS - 1) (rows_of grid) }
        ensures room { length self.new.rows < KEPT_ROWS }
    {
        if self.rows.is_full() {
            self.rows.remove(0);
        }
    }

    /// The column at which the next byte goes.
    pub fn column(&self) -> u32
        ensures { result ≡ self.now.column }
    {
        self.column
    }

    /// How many rows are kept.
    pub fn rows(&self) -> u8
        ensures value { result ≡ length self.now.rows }
        ensures some { 0 < result }
        ensures few { result ≤ KEPT_ROWS }
    {
        self.rows.len() as u8
    }

    /// One of the rows that are kept, by its number from 0, from the top.
    pub fn row(&self, number: u8) -> &Row
        requires { number < length self.now.rows }
        ensures { slice_get self.now.rows number ≡ Some result.now }
    {
        &self.rows[usize::from(number)]
    }
}
