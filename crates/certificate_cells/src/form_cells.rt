// The positions of the cells that certificates can fill.
ghost use Rattle.std.specs.Prelude.{◌≡◌, ◌<◌, true, MatchOption};
ghost use Rattle.certificate_cells.specs.Cells.{position_with, is_of_position};

use form::positions::position;

// The index, 0 to 8, of the position that a cell belongs to.
pub(crate) fn position_with(cell: usize) -> Option<usize>
    ensures { MatchOption result (position_with cell ≡ 9) (λ i. (i < 9) × ((position_with cell ≡ i) × (is_of_position cell i ≡ true))) }
{
    (0..9).find(|i| is_of_position(*i, cell))
}

// A cell is the balance, the coupon or the remaining months of the position at an index.
#[tactic(auto, unfolding(crate::specs::Cells::is_of_position))]
fn is_of_position(i: usize, cell: usize) -> bool
    ensures { result ≡ is_of_position cell i }
{
    let cells = position(i);
    cells.balance == cell || cells.coupon == cell || cells.months == cell
}
