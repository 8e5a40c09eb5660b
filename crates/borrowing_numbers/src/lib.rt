// The 374 numbers of a filing's borrowings (02:CR 8).
#![tactic(auto)]

mod rows;
mod totals;

ghost use Rattle.std.specs.Prelude.{◌≡◌, ◌++◌, ◌≤◌, length, drop};
ghost use Rattle.filing_contents.specs.Contents.{libor_in};
ghost use Rattle.price_factors.specs.Inner.Factors.{WithinRates, sheet_yield};
ghost use Rattle.borrowing_numbers.specs.Numbers.{numbers, borrowing_number_count};
ghost use Rattle.borrowing_numbers.specs.Inner.Rows.{BorrowingLimits};

use crate::rows::write_rows;
use crate::totals::totals_of;
use form::CELLS;
use form::borrowings::BORROWING_TOTALS_START;
use form::limits::SHEET_NUMBERS;
use lists::write;

// Writes the rows of the borrowings among a filing's cells, and then the totals, which are taken from the rows, at the LIBOR yields among the numbers of its
// sheets. The rest of the list is left as it was.
pub fn write_borrowings(cells: &[u64; CELLS], sheets: &[u16; SHEET_NUMBERS], list: &mut [u64])
    requires { BorrowingLimits cells.now × WithinRates (libor_in sheets.now) × (borrowing_number_count ≤ length list.old) }
    ensures { list.new ≡ numbers cells.now (sheet_yield (libor_in sheets.now)) ++ drop borrowing_number_count list.old }
{
    write_rows(cells, sheets, list);
    let totals = totals_of(list);
    write(list, BORROWING_TOTALS_START, &totals);
}
