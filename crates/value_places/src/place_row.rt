// The fifteen numbers of a place: its balance, then its lower and upper value in each scenario.
ghost use Rattle.std.specs.Prelude.{◌≡◌, ◌≤◌, ◌<◌, length};
ghost use Rattle.form.specs.Limits.{balance_limit, rate_count};
ghost use Rattle.form.specs.PlaceOrder.{sub_balance_count, position_of};
ghost use Rattle.withdrawal.specs.Inner.TierArrays.{tier_table};
ghost use Rattle.pricing.specs.Rounding.{down, up};
ghost use Rattle.price_factors.specs.Inner.Factors.{WithinRates};
ghost use Rattle.price_deposits.specs.Inner.Levels.{LevelsLeft, TiersLent, lent_tiers};
ghost use Rattle.price_deposits.specs.Inner.Prices.{DepositLimits};
ghost use Rattle.price_multipliers.specs.Inner.Tables.{factors_of, Discounting};
ghost use Rattle.value_places.specs.PlaceTerms.{deposit_at};
ghost use Rattle.value_places.specs.Inner.PlaceRows.{tabled_held, row_of};

use form::positions::position;
use form::sub_balances::{PLACE_NUMBERS, PLACE_VALUES, SubBalance};
use lists::write;
use price_deposits::values::values_of;
use price_deposits::{Deposit, MonthLevels};
use price_multipliers::discount_tables::MultiplierTable;
use pricing::Bounds;
use withdrawal::WithdrawalTiers;

// The row of what place 0 to 35 holds, at the retail rates and the tiers of a filing. The tables hold the multipliers of the discount factors.
// `months` is room for the levels of its months: for a zero balance, and from the last month on, it is left as it was.
pub fn row_of(
    held: SubBalance,
    place: usize,
    rates: &[u16],
    tiers: &WithdrawalTiers,
    discounts: &Bounds<MultiplierTable>,
    months: &mut MonthLevels,
) -> [u64; PLACE_NUMBERS]
    requires place_lt_sub_balance_count { (place < sub_balance_count) × (held.balance ≤ balance_limit) × DepositLimits (deposit_at place held) }
    requires within_rates { WithinRates rates.now × (rate_count ≤ length rates.now) × TiersLent tiers.now.count tiers.now.edges tiers.now.survivals tiers.now.retained }
    requires discounting { 0 < held.balance → Discounting down (deposit_at place held).months discounts.now.lower × Discounting up (deposit_at place held).months discounts.now.upper }
    ensures value { (t : TiersLent tiers.now.count tiers.now.edges tiers.now.survivals tiers.now.retained) → result ≡ row_of held place rates.now (tier_table (lent_tiers t)) (factors_of down (deposit_at place held).months discounts.now.lower) (factors_of up (deposit_at place held).months discounts.now.upper) }
    ensures levels_left { LevelsLeft tiers.now held.balance (deposit_at place held) rates.now (position_of place).column months.old months.new }
{
    if held.balance == 0 {
        return [0; PLACE_NUMBERS];
    }
    let values = held_values(held, place, rates, tiers, discounts, months);
    let mut row = [held.balance; PLACE_NUMBERS];
    write(&mut row, 1, &values);
    row
}

// Lower and upper value in each scenario of what place 0 to 35 holds, in dollars. `months` is used as by `row_of`.
pub fn held_values(
    held: SubBalance,
    place: usize,
    rates: &[u16],
    tiers: &WithdrawalTiers,
    discounts: &Bounds<MultiplierTable>,
    months: &mut MonthLevels,
) -> [u64; PLACE_VALUES]
    requires place_lt_sub_balance_count { (place < sub_balance_count) × (held.balance ≤ balance_limit) × DepositLimits (deposit_at place held) }
    requires within_rates { WithinRates rates.now × (rate_count ≤ length rates.now) × TiersLent tiers.now.count tiers.now.edges tiers.now.survivals tiers.now.retained }
    requires discounting { 0 < held.balance → Discounting down (deposit_at place held).months discounts.now.lower × Discounting up (deposit_at place held).months discounts.now.upper }
    ensures value { (t : TiersLent tiers.now.count tiers.now.edges tiers.now.survivals tiers.now.retained) → result ≡ tabled_held held place rates.now (tier_table (lent_tiers t)) (factors_of down (deposit_at place held).months discounts.now.lower) (factors_of up (deposit_at place held).months discounts.now.upper) }
    ensures levels_left { LevelsLeft tiers.now held.balance (deposit_at place held) rates.now (position_of place).column months.old months.new }
{
    let d = deposit_at(place, held);
    let column = position(place / 4).column;
    values_of(held.balance, d, rates, column, tiers, discounts, months)
}

// The deposit at a place.
fn deposit_at(place: usize, held: SubBalance) -> Deposit
    ensures { result ≡ deposit_at place held }
{
    Deposit {
        brokered: 2 <= place % 4,
        coupon: held.coupon,
        penalty: held.penalty,
        months: held.remaining_months,
    }
}
