// The sums of the columns' balances, in thousands of dollars. Balances within their limit cannot make a sum wrap.
ghost use Rattle.std.specs.Prelude.{◌≡◌};
ghost use Rattle.filing_cells.specs.Inner.Sums.{BalancesWithin, column_sums};

use crate::column_sums::ColumnSums;
use crate::column_sums::cells::cell_value;
use form::CELLS;
use form::positions::position;

// The sums of the three columns, and before each position the sum of its column's rows above it.
pub(crate) fn column_sums(cells: &[u64; CELLS]) -> ColumnSums
    requires { BalancesWithin cells.now }
    ensures { result ≡ column_sums cells.now }
{
    let mut totals = [0; 3];
    let mut above = [0; 9];
    for i in 0..9 {
        let p = position(i);
        let column = p.column - 1;
        above[i] = totals[column];
        totals[column] += cell_value(cells, p.balance);
    }
    ColumnSums { totals, above }
}
