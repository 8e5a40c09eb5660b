// What the cells of a position hold: its balance, and the means of its coupons and remaining months.
ghost use Rattle.std.specs.Prelude.{◌≡◌, ◌<◌, ◌^◌};
ghost use Rattle.lists.specs.Sums.{sum};
ghost use Rattle.certificate_cells.specs.Means.{mean};
ghost use Rattle.certificate_cells.specs.Inner.Listing.{Bounded, value_filled};

use crate::filled_cells::Totals;
use crate::form_cells::position_with;
use form::TOTAL_CELL;
use form::positions::position;

impl Totals {
    // What these sums fill a cell with: nothing where certificates do not fill it, or its position sums to 0.
    pub(crate) fn value_of(&self, cell: usize) -> Option<u64>
        requires { Bounded self.now }
        ensures { result ≡ value_filled self.now cell }
    {
        if cell == TOTAL_CELL {
            return Some(self.total());
        }
        let i = position_with(cell)?;
        let cells = position(i);
        let balance = self.balance[i];
        if balance == 0 {
            None
        } else if cell == cells.balance {
            Some(balance)
        } else if cell == cells.coupon {
            Some(mean(self.coupon[i], balance))
        } else {
            Some(mean(self.months[i], balance))
        }
    }

    // The sum of the nine balances.
    fn total(&self) -> u64
        requires { Bounded self.now }
        ensures { result ≡ sum self.now.balance }
    {
        self.balance.iter().sum()
    }
}

// The weighted mean to the nearest whole number, halves up; 0 without a weight.
#[tactic(auto, unfolding(crate::specs::Means::mean))]
fn mean(weighted: u64, weight: u64) -> u64
    requires weighted_bound { weighted < 2 ^ 62 }
    requires weight_bound { weight < 2 ^ 62 }
    ensures { result ≡ mean weighted weight }
{
    if weight == 0 {
        0
    } else {
        (2 * weighted + weight) / (2 * weight)
    }
}
