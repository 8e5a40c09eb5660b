// What a depositor gains and foregoes by withdrawing early.
#![tactic(auto)]

ghost use Rattle.std.specs.Prelude.{◌≡◌, suc, ◌≤◌};
ghost use Rattle.form.specs.Limits.{coupon_limit, penalty_limit, months_limit};
ghost use Rattle.form.specs.Shift.{shifted_limit};
ghost use Rattle.withdrawal.specs.Gain.{at_most};
ghost use Rattle.withdrawal.specs.Inner.Incentives.{parts_of, incentive_from, gain_of, PartsWithin, Small};

use withdrawal::{CouponParts, Incentive};

// The scale of the gain (01:49; 02:CR 4).
const GAIN_SCALE: u64 = 120_000_000;

// What a penalty of one hundredth of a month costs at a coupon of one (01:49).
const PENALTY_SCALE: u64 = 120_000;

// What a month at a coupon of one is worth (01:49).
const COST_SCALE: u64 = 12_000_000;

// The parts that no month changes. The coupon is in thousandths of a percent a year, the penalty in hundredths of a month.
pub fn coupon_parts(coupon: u64, penalty: u64) -> CouponParts
    requires { (coupon ≤ coupon_limit) × (penalty ≤ penalty_limit) }
    ensures { result ≡ parts_of coupon penalty }
{
    CouponParts {
        share: GAIN_SCALE - coupon * penalty,
        forfeited: PENALTY_SCALE * coupon * penalty,
        cost: COST_SCALE * coupon,
    }
}

// Gain and cost with `left` months to go, at a retail rate in hundredths of a percent a year.
pub fn gain_and_cost(parts: CouponParts, rate: u64, left: u64) -> Incentive
    requires { PartsWithin parts × (rate ≤ shifted_limit) × (left ≤ months_limit) }
    ensures { result ≡ incentive_from parts rate left }
{
    Incentive {
        earned: parts.share * (rate * left),
        forfeited: parts.forfeited,
        cost: parts.cost * left,
    }
}

// The gain is above the cost.
pub fn gain_above_cost(incentive: Incentive) -> bool
    requires { Small incentive }
    ensures { result ≡ at_most (suc incentive.cost) (gain_of incentive) }
{
    incentive.cost + incentive.forfeited < incentive.earned
}
