// What a place of the book takes.
#![tactic(auto)]

ghost use Rattle.std.specs.Prelude.{◌≡◌};
ghost use Rattle.book_limits.specs.PlaceLimits.{fits_place, penalty_within};

use form::limits::{BALANCE_LIMIT, COUPON_LIMIT, PENALTY_LIMIT};
use form::positions::{position, within_row};
use form::sub_balances::SUB_BALANCES;

// A place from 0 to 35 takes a balance, a coupon, months of its row and a penalty. Guards in place of one chain of `&&`, whose proof did not close: where the
// chain's values join, a test that failed is no longer named.
#[tactic(auto, unfolding(crate::specs::PlaceLimits::fits_place))]
pub fn fits(place: usize, balance: u64, coupon: u64, months: u64, penalty: u64) -> bool
    ensures { result ≡ fits_place place balance coupon months penalty }
{
    if SUB_BALANCES <= place {
        return false;
    }
    if balance < 1 {
        return false;
    }
    if BALANCE_LIMIT < balance {
        return false;
    }
    if COUPON_LIMIT < coupon {
        return false;
    }
    if !within_row(position(place / 4).row, months) {
        return false;
    }
    penalty_within(place, penalty)
}

// A place with penalty takes one up to the limit, a place without none.
fn penalty_within(place: usize, penalty: u64) -> bool
    ensures { result ≡ penalty_within place penalty }
{
    if place % 2 == 0 {
        penalty <= PENALTY_LIMIT
    } else {
        penalty == 0
    }
}
