// What survives a month of a retail deposit without penalty.
ghost use Rattle.std.specs.Prelude.{◌≡◌, ◌≤◌};
ghost use Rattle.form.specs.Limits.{months_limit};
ghost use Rattle.form.specs.Shift.{shifted_limit};
ghost use Rattle.withdrawal.specs.Inner.TierArrays.{EdgesFit};
ghost use Rattle.withdrawal.specs.Inner.Incentives.{parts_of, incentive_from, Small};
ghost use Rattle.intangible.specs.Bounded.{rolled_coupon_limit};
ghost use Rattle.intangible_months.specs.Inner.Lent.{lent_survival};

use withdrawal::{Incentive, WithdrawalTiers};
use withdrawal_search::reached_level;

// The scales of gain and cost (01:49; 02:CR 4).
const GAIN_SCALE: u64 = 120_000_000;

const COST_SCALE: u64 = 12_000_000;

// q in billionths before the last month of a term with a coupon in thousandths of a percent a year, at a month's rate in hundredths and with `left` months to
// go: the highest edge first.
pub fn early_survival(coupon: u64, rate: u64, left: u64, tiers: &WithdrawalTiers) -> u64
    requires { (coupon ≤ rolled_coupon_limit) × (rate ≤ shifted_limit) × (left ≤ months_limit) × EdgesFit tiers.now.count tiers.now.edges }
    ensures { result ≡ lent_survival tiers.now coupon rate left }
{
    let incentive = incentive_of(coupon, rate, left);
    let level = reached_level(tiers.count, &tiers.edges, incentive).level;
    if level < tiers.count {
        tiers.survivals[level]
    } else {
        tiers.retained
    }
}

// Gain and cost without a penalty.
fn incentive_of(coupon: u64, rate: u64, left: u64) -> Incentive
    requires { (coupon ≤ rolled_coupon_limit) × (rate ≤ shifted_limit) × (left ≤ months_limit) }
    ensures { (result ≡ incentive_from (parts_of coupon 0) rate left) × Small result }
{
    Incentive {
        earned: GAIN_SCALE * (rate * left),
        forfeited: 0,
        cost: COST_SCALE * coupon * left,
    }
}
