// What can be wrong with the cells of a filing whose records are sound: refusals 19 and 7 to 9, in the paper's order.
#![tactic(auto)]

pub mod borrowings;
pub mod column_sums;

ghost use Rattle.std.specs.Prelude.{◌≡◌, IfOk};
ghost use Rattle.answers.specs.Answers.{verdict_of};
ghost use Rattle.filing_cells.specs.Inner.Sums.{BalancesWithin, column_sums};
ghost use Rattle.filing_cells.specs.Inner.Borrowed.{BorrowingsWithin};
ghost use Rattle.filing_cells.specs.Conditions.{months_outside};
ghost use Rattle.filing_cells.specs.CellVerdicts.{months_verdict, columns_verdict, total_verdict, cells_verdict};

use crate::borrowings::{check_borrowings_total, check_coupons, check_terms};
use crate::column_sums::ColumnSums;
use crate::column_sums::cells::cell_value;
use crate::column_sums::sums::column_sums;
use answers::Refusal;
use form::positions::{position, within_row};
use form::{CELLS, FIRST_COLUMN_CELL, Position, TOTAL_CELL};

// 19 and 7 to 9, on the cells of a filing: the sums of their columns where none refuses.
pub fn check_cells(cells: &[u64; CELLS]) -> Result<ColumnSums, Refusal>
    requires { BalancesWithin cells.now × BorrowingsWithin cells.now }
    ensures answer_value { verdict_of result ≡ cells_verdict cells.now }
    ensures sums_value { IfOk result (λ sums. sums ≡ column_sums cells.now) }
{
    let sums = column_sums(cells);
    check_coupons(cells)?;
    check_months(cells)?;
    check_terms(cells)?;
    check_columns(cells, &sums.totals)?;
    check_total(cells, &sums.totals)?;
    check_borrowings_total(cells)?;
    Ok(sums)
}

// 7, by ascending WARM cell.
fn check_months(cells: &[u64; CELLS]) -> Result<(), Refusal>
    ensures { verdict_of result ≡ months_verdict cells.now }
{
    for i in 0..9 {
        let p = position(i);
        if months_outside(cells, p) {
            return Err(Refusal::MonthsOutsideRow(p.months));
        }
    }
    Ok(())
}

// A position has a balance, and its remaining months lie outside its row.
fn months_outside(cells: &[u64; CELLS], p: Position) -> bool
    ensures { result ≡ months_outside cells.now p }
{
    if cell_value(cells, p.balance) == 0 {
        return false;
    }
    let months = cell_value(cells, p.months);
    !within_row(p.row, months)
}

// 8, by ascending cell: the brokered balances of the three columns, then their balances subject to penalty.
fn check_columns(cells: &[u64; CELLS], totals: &[u64; 3]) -> Result<(), Refusal>
    requires { totals.now ≡ (column_sums cells.now).totals }
    ensures { verdict_of result ≡ columns_verdict cells.now }
{
    for i in 0..6 {
        let column = i % 3;
        if totals[column] < cell_value(cells, i + FIRST_COLUMN_CELL) {
            return Err(Refusal::AboveColumnSum(i + FIRST_COLUMN_CELL));
        }
    }
    Ok(())
}

// 9, at the total.
fn check_total(cells: &[u64; CELLS], totals: &[u64; 3]) -> Result<(), Refusal>
    requires { BalancesWithin cells.now × (totals.now ≡ (column_sums cells.now).totals) }
    ensures { verdict_of result ≡ total_verdict cells.now }
{
    if cell_value(cells, TOTAL_CELL) == totals[0] + totals[1] + totals[2] {
        Ok(())
    } else {
        Err(Refusal::TotalDiffers(TOTAL_CELL))
    }
}
