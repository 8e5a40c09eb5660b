// Refusals, cells and totals as plain numbers, for C.
ghost use Rattle.std.specs.Prelude.{◌≡◌, ◌∷◌};
ghost use Rattle.answers.specs.Answers.{number_of, location_of};
ghost use Rattle.exports.specs.CellNumbers.{pair_at, numbers_of};

use answers::Refusal;
use certificate_cells::filled_cells::{CellValue, MOST_CELLS};
use form::sub_balances::TOTALS;
use lists::write;

// The number of a refusal, with its location in a lent number.
pub(crate) fn refused(refusal: Refusal, at: &mut u64) -> u64
    ensures { (result ≡ number_of refusal) × (at.new ≡ location_of refusal) }
{
    *at = refusal.location() as u64;
    refusal.number()
}

// The number and the value of each cell; 0 past the last.
pub(crate) fn cell_numbers(cells: &[CellValue]) -> [u64; 2 * MOST_CELLS]
    ensures { result ≡ numbers_of cells.now }
{
    let mut numbers = [0; 2 * MOST_CELLS];
    for i in 0..MOST_CELLS {
        write(&mut numbers, 2 * i, &pair_at(cells, i));
    }
    numbers
}

// The number and the value of the cell at an index.
#[tactic(auto, unfolding(crate::specs::CellNumbers::pair_at))]
fn pair_at(cells: &[CellValue], i: usize) -> [u64; 2]
    ensures { result ≡ pair_at cells.now i }
{
    match cells.get(i) {
        Some(c) => [c.cell as u64, c.value],
        None => [0, 0],
    }
}

// The balance total, and then the totals.
pub(crate) fn shown(balance: u64, totals: &[u64; TOTALS]) -> [u64; 29]
    ensures { result ≡ balance ∷ totals.now }
{
    let mut numbers = [balance; 29];
    write(&mut numbers, 1, totals);
    numbers
}
