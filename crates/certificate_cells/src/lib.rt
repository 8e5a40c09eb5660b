// The cells that sums of positions fill.
#![tactic(auto)]

mod cell_means;
pub mod filled_cells;
mod form_cells;

ghost use Rattle.std.specs.Prelude.{◌≡◌, ◌≤◌, length};
ghost use Rattle.certificate_cells.specs.Cells.{items_of};
ghost use Rattle.certificate_cells.specs.Inner.Listing.{Bounded, accepted_cells};

use crate::filled_cells::{CellValue, Cells, MOST_CELLS, Totals};
use form::{FIRST_CELL, TOTAL_CELL};

impl Totals {
    // The cells that these sums fill, by ascending number.
    pub fn cells(&self) -> Cells
        requires { Bounded self.now }
        ensures { result ≡ accepted_cells self.now }
    {
        let mut cells = [CellValue { cell: 0, value: 0 }; MOST_CELLS];
        let mut count = 0;
        for cell in FIRST_CELL as usize..TOTAL_CELL + 1 {
            if let Some(value) = self.value_of(cell) {
                cells[count] = CellValue { cell, value };
                count += 1;
            }
        }
        Cells { count, cells }
    }
}

impl Cells {
    // The cells that are counted, in order.
    pub fn as_slice(&self) -> &[CellValue]
        ensures value { result.now ≡ items_of self.now }
        ensures fits { length result.now ≤ MOST_CELLS }
    {
        &self.cells[..self.count.min(MOST_CELLS)]
    }
}
