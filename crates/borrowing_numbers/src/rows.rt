// The rows of the borrowings, one after the other.
ghost use Rattle.std.specs.Prelude.{◌≡◌, ◌++◌, ◌≤◌, ◌<◌, length, drop};
ghost use Rattle.lists.specs.Tables.{table, joined};
ghost use Rattle.form.specs.Borrowings.{borrowing_count};
ghost use Rattle.filing_contents.specs.Contents.{libor_in};
ghost use Rattle.price_factors.specs.Inner.Factors.{WithinRates, AtMostPar, sheet_yield};
ghost use Rattle.borrowing_numbers.specs.Numbers.{borrowing_numbers, borrowing_totals_start};
ghost use Rattle.borrowing_numbers.specs.Inner.Rows.{BorrowingLimits, term_at, longest_to, row_with};

use borrowing_prices::values_of;
use filing_cells::column_sums::cells::cell_value;
use filing_contents::sheet_rows::{PositionKind, row_used};
use form::CELLS;
use form::borrowings::{BORROWINGS, borrowing_at};
use form::limits::SHEET_NUMBERS;
use form::sub_balances::PLACE_NUMBERS;
use lists::write;
use price_factors::{FACTORS, FactorTable, fill_factors};
use pricing::Bounds;

// The fifteen numbers of each borrowing.
pub(crate) fn write_rows(cells: &[u64; CELLS], sheets: &[u16; SHEET_NUMBERS], list: &mut [u64])
    requires { BorrowingLimits cells.now × WithinRates (libor_in sheets.now) × (borrowing_totals_start ≤ length list.old) }
    ensures { list.new ≡ joined (table borrowing_count (borrowing_numbers cells.now (sheet_yield (libor_in sheets.now)))) ++ drop borrowing_totals_start list.old }
{
    let longest = longest_term(cells);
    let libor = row_used(sheets, PositionKind::Borrowing);
    let mut factors = Bounds {
        lower: [0; FACTORS],
        upper: [0; FACTORS],
    };
    fill_factors(libor, longest, &mut factors.lower, &mut factors.upper);
    for i in 0..BORROWINGS {
        let row = row_of(cells, i, &factors);
        write(list, PLACE_NUMBERS * i, &row);
    }
}

// The row of a borrowing by tables of discount factors.
fn row_of(cells: &[u64; CELLS], i: usize, factors: &Bounds<FactorTable>) -> [u64; PLACE_NUMBERS]
    requires { BorrowingLimits cells.now × (i < borrowing_count) × AtMostPar factors.now.lower × AtMostPar factors.now.upper }
    ensures { result ≡ row_with cells.now factors.now.lower factors.now.upper i }
{
    let b = borrowing_at(i);
    let balance = cell_value(cells, b.balance);
    let coupon = cell_value(cells, b.coupon);
    let months = cell_value(cells, b.months);
    let values = values_of(balance, coupon, months, factors);
    let mut row = [balance; PLACE_NUMBERS];
    write(&mut row, 1, &values);
    row
}

// The longest term of a borrowing with a balance.
fn longest_term(cells: &[u64; CELLS]) -> u64
    ensures { result ≡ longest_to cells.now borrowing_count }
{
    let mut longest: u64 = 0;
    for i in 0..BORROWINGS {
        longest = longest.max(term_at(cells, i));
    }
    longest
}

// The months of a borrowing with a balance, 0 of one without.
fn term_at(cells: &[u64; CELLS], i: usize) -> u64
    requires { i < borrowing_count }
    ensures { result ≡ term_at cells.now i }
{
    let b = borrowing_at(i);
    if cell_value(cells, b.balance) == 0 {
        0
    } else {
        cell_value(cells, b.months)
    }
}
