// One deposit in a scenario: its price, from its months walked once, with the lower and the upper run side by side, and the value of a balance at it.
ghost use Rattle.std.specs.Prelude.{◌≡◌, ◌*◌, ◌≤◌, ◌<◌};
ghost use Rattle.form.specs.Limits.{balance_limit, coupon_limit, months_limit};
ghost use Rattle.form.specs.Shift.{scenario_count};
ghost use Rattle.pricing.specs.Scales.{coupon_growth, amount_limit};
ghost use Rattle.price_deposits.specs.Inner.Walked.{walked_prices, values_at, Priceable};

use form::sub_balances::SCENARIOS;
use price_months::month_steps::last;
use price_months::walk::early_months;
use price_multipliers::MonthMultipliers;
use price_multipliers::discount_tables::MultiplierTable;
use price_rounding::values::value_of;
use pricing::Bounds;
use withdrawal_months::{LevelMultipliers, Levels};

// The growth of a coupon of one thousandth of a percent a year, in units of 1 / (3 x 10^9) of the balance (01:56; 02:CR 4).
const COUPON_GROWTH: u64 = 2_500;

// Lower and upper value in a scenario.
pub(crate) fn value_bounds(
    balance: u64,
    months: u64,
    levels: &Levels,
    multipliers: &LevelMultipliers,
    last_month: MonthMultipliers,
    discounts: &Bounds<MultiplierTable>,
    scenario: usize,
) -> [u64; 2]
    requires balance_le_balance_limit { (balance ≤ balance_limit) × (months ≤ months_limit) × (scenario < scenario_count) }
    requires priceable { Priceable multipliers.now levels.now last_month discounts.now scenario months }
    requires months_bound { ((walked_prices multipliers.now levels.now last_month discounts.now scenario months).lower ≤ amount_limit) × ((walked_prices multipliers.now levels.now last_month discounts.now scenario months).upper ≤ amount_limit) }
    ensures { result ≡ values_at balance (walked_prices multipliers.now levels.now last_month discounts.now scenario months) }
{
    let price = price_of(months, levels, multipliers, last_month, discounts, scenario);
    [
        value_of(balance, price.lower, false),
        value_of(balance, price.upper, true),
    ]
}

// Lower and upper price in a scenario in billionths: the months before the last by the multipliers of their levels, and then the last by its own.
fn price_of(
    months: u64,
    levels: &Levels,
    multipliers: &LevelMultipliers,
    last_month: MonthMultipliers,
    discounts: &Bounds<MultiplierTable>,
    scenario: usize,
) -> Bounds<u64>
    requires months_le_months_limit { (months ≤ months_limit) × (scenario < scenario_count) }
    requires priceable { Priceable multipliers.now levels.now last_month discounts.now scenario months }
    ensures { result ≡ walked_prices multipliers.now levels.now last_month discounts.now scenario months }
{
    if months == 0 {
        return Bounds { lower: 0, upper: 0 };
    }
    let runs = early_months(months, levels, multipliers, discounts, scenario);
    let i = SCENARIOS * (months as usize - 1) + scenario;
    Bounds {
        lower: last::<false>(runs.lower, last_month, discounts.lower[i]),
        upper: last::<true>(runs.upper, last_month, discounts.upper[i]),
    }
}

// The growth of a coupon.
pub(crate) fn coupon_growth(coupon: u64) -> u64
    requires { coupon ≤ coupon_limit }
    ensures { result ≡ coupon_growth * coupon }
{
    COUPON_GROWTH * coupon
}
