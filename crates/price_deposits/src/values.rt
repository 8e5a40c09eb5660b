// The value of a balance: lower and upper in each scenario.
ghost use Rattle.std.specs.Prelude.{◌≡◌, ◌<◌, ◌≤◌};
ghost use Rattle.form.specs.Limits.{balance_limit};
ghost use Rattle.withdrawal.specs.MonthSurvival.{account_of};
ghost use Rattle.withdrawal.specs.Inner.TierArrays.{tier_table};
ghost use Rattle.pricing.specs.Rounding.{down, up};
ghost use Rattle.price_multipliers.specs.Inner.Tables.{factors_of, Discounting};
ghost use Rattle.price_deposits.specs.DepositTerms.{servicing_cost};
ghost use Rattle.price_deposits.specs.Inner.Levels.{LevelsLeft, TiersLent, lent_tiers};
ghost use Rattle.price_deposits.specs.Inner.Prices.{ColumnRates, DepositLimits};
ghost use Rattle.price_deposits.specs.Inner.Values.{tabled_values};

use crate::Deposit;
use crate::deposit_prices::{coupon_growth, value_bounds};
use form::sub_balances::{PLACE_VALUES, SCENARIOS};
use lists::write;
use price_multipliers::discount_tables::MultiplierTable;
use price_multipliers::multipliers_of;
use pricing::{Bounds, PAR};
use withdrawal::WithdrawalTiers;
use withdrawal_months::{Levels, early_levels, level_multipliers};

// Values in dollars of a balance in thousands of dollars: lower, upper, lower, upper and so on by scenario, at the retail rates of a column, 1 to 3, which
// are not shifted. Of the tiers the edges are read and what survives at each. The tables hold the multipliers of the discount factors. In the last month
// nothing is withdrawn early. A zero balance walks no month.
// `levels` is room for the levels of its months: for a zero balance, and from the last month on, it is left as it was.
pub fn values_of(
    balance: u64,
    d: Deposit,
    rates: &[u16],
    column: usize,
    tiers: &WithdrawalTiers,
    discounts: &Bounds<MultiplierTable>,
    levels: &mut Levels,
) -> [u64; PLACE_VALUES]
    requires balance_le_balance_limit { (balance ≤ balance_limit) × DepositLimits d × ColumnRates rates.now column × TiersLent tiers.now.count tiers.now.edges tiers.now.survivals tiers.now.retained }
    requires discounting { 0 < balance → Discounting down d.months discounts.now.lower × Discounting up d.months discounts.now.upper }
    ensures value { (t : TiersLent tiers.now.count tiers.now.edges tiers.now.survivals tiers.now.retained) → result ≡ tabled_values (tier_table (lent_tiers t)) balance d rates.now column (factors_of down d.months discounts.now.lower) (factors_of up d.months discounts.now.upper) }
    ensures levels_left { LevelsLeft tiers.now balance d rates.now column levels.old levels.new }
{
    let mut values = [0u64; PLACE_VALUES];
    if balance == 0 {
        return values;
    }
    let growth = coupon_growth(d.coupon);
    let servicing = servicing_cost(d.brokered);
    let last = multipliers_of(growth, servicing, PAR);
    early_levels(
        d.brokered, d.coupon, d.penalty, d.months, rates, column, tiers, levels,
    );
    let multipliers = level_multipliers(d.brokered, growth, servicing, tiers);
    for scenario in 0..SCENARIOS {
        let two = value_bounds(
            balance,
            d.months,
            levels,
            &multipliers,
            last,
            discounts,
            scenario,
        );
        write(&mut values, 2 * scenario, &two);
    }
    values
}

// The month's servicing cost in billionths of the balance.
fn servicing_cost(brokered: bool) -> u64
    ensures { result ≡ servicing_cost (account_of brokered) }
{
    if brokered { 19000 } else { 175000 }
}
