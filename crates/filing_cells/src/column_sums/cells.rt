// The cells of a filing: the values of the listed cells.
ghost use Rattle.std.specs.Prelude.{◌≡◌};
ghost use Rattle.filing_cells.specs.Balances.{cell_in};

use form::{CELLS, FIRST_CELL, LAST_CELL};

// The value of a cell; 0 for a number outside the listed cells.
pub fn cell_value(cells: &[u64; CELLS], n: usize) -> u64
    ensures { result ≡ cell_in cells.now n }
{
    let cell = n as u64;
    if cell < FIRST_CELL {
        return 0;
    }
    if LAST_CELL < cell {
        return 0;
    }
    let i = (cell - FIRST_CELL) as usize;
    cells[i]
}
