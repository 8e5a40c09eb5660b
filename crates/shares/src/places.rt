// The split of a filing's balances into the thirty-six sub-balances.
ghost use Rattle.std.specs.Prelude.{◌≡◌, ◌<◌};
ghost use Rattle.filing_cells.specs.ValidCells.{ValidCells};
ghost use Rattle.filing_cells.specs.Inner.Sums.{column_sums};
ghost use Rattle.shares.specs.Inner.Rows.{row_at};
ghost use Rattle.shares.specs.Places.{places_of};

use crate::apportion::Row;
use filing_cells::column_sums::ColumnSums;
use filing_cells::column_sums::cells::cell_value;
use form::positions::position;
use form::sub_balances::{NO_PLACE, SUB_BALANCES, SubBalance};
use form::{BROKERED_CELLS, CELLS, PENALTY_BALANCE_CELLS, PENALTY_MONTHS_CELLS};

// The thirty-six places of a filing, by its cells and the sums of their columns: nine positions ascending, four places each.
pub fn places_of(cells: &[u64; CELLS], sums: ColumnSums) -> [SubBalance; SUB_BALANCES]
    requires { ValidCells cells.now × (sums ≡ column_sums cells.now) }
    ensures { result ≡ places_of cells.now }
{
    let mut places = [NO_PLACE; SUB_BALANCES];
    for i in 0..9 {
        let row = row_at(cells, sums, i);
        let four = row.shares();
        let at = 4 * i;
        places[at] = row.place(four[0], row.penalty);
        places[at + 1] = row.place(four[1], 0);
        places[at + 2] = row.place(four[2], row.penalty);
        places[at + 3] = row.place(four[3], 0);
    }
    places
}

// The row of a position.
fn row_at(cells: &[u64; CELLS], sums: ColumnSums, i: usize) -> Row
    requires { (sums ≡ column_sums cells.now) × (i < 9) }
    ensures { result ≡ row_at cells.now i }
{
    let p = position(i);
    let column = p.column - 1;
    Row {
        total: sums.totals[column],
        above: sums.above[i],
        balance: cell_value(cells, p.balance),
        brokered: cell_value(cells, BROKERED_CELLS + p.column),
        penalized: cell_value(cells, PENALTY_BALANCE_CELLS + p.column),
        coupon: cell_value(cells, p.coupon),
        remaining_months: cell_value(cells, p.months),
        penalty: cell_value(cells, PENALTY_MONTHS_CELLS + p.column),
    }
}
