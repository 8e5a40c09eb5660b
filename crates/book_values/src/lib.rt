// The values of a place under the sheets and tiers that a book holds.
#![tactic(auto)]

ghost use Rattle.std.specs.Prelude.{◌≡◌, ◌-◌, ◌≤◌, ◌<◌, length};
ghost use Rattle.lists.specs.Tables.{any_below};
ghost use Rattle.form.specs.Limits.{balance_limit, tier_limit};
ghost use Rattle.form.specs.PlaceOrder.{sub_balance_count};
ghost use Rattle.form.specs.Counts.{factor_count};
ghost use Rattle.pricing.specs.Scales.{par};
ghost use Rattle.price_deposits.specs.Inner.Prices.{DepositLimits};
ghost use Rattle.value_places.specs.PlaceTerms.{deposit_at};
ghost use Rattle.book_values.specs.Sheets.{above_limit, is_zero, not_rising, tiers_usable, sheets_usable, values_under};

use filing_contents::FiledTiers;
use form::limits::{RATE_LIMIT, TERM_MONTHS, TIER_LIMIT, WITHDRAWAL_LIMIT};
use form::sub_balances::{PLACE_VALUES, SCENARIOS, SubBalance};
use price_deposits::RatePaths;
use price_factors::FactorTable;
use price_multipliers::discount_tables::to_multipliers;
use pricing::{Bounds, PAR};
use value_places::place_row::held_values;
use withdrawal_filing::tiers_of;

// Lower and upper value in each scenario of what a place holds, in dollars. They are 0 under sheets that no filing has.
pub fn values_in(
    held: SubBalance,
    place: usize,
    rates: &RatePaths,
    tiers: FiledTiers,
    factors: &Bounds<FactorTable>,
) -> [u64; PLACE_VALUES]
    requires { (place < sub_balance_count) × (held.balance ≤ balance_limit) × DepositLimits (deposit_at place held) }
    ensures { result ≡ values_under rates.now tiers factors.now.lower factors.now.upper place held }
{
    if !usable(rates, tiers, factors) {
        return [0; PLACE_VALUES];
    }
    let own = tiers_of(tiers);
    let mut discounts = *factors;
    to_multipliers(&mut discounts.lower, held.remaining_months, false);
    to_multipliers(&mut discounts.upper, held.remaining_months, true);
    let mut months = [[0u8; SCENARIOS]; TERM_MONTHS];
    held_values(held, place, rates, &own, &discounts, &mut months)
}

// Every rate, tier and factor is within its limit and no upper factor is 0, as those of a filing are.
fn usable(rates: &RatePaths, tiers: FiledTiers, factors: &Bounds<FactorTable>) -> bool
    ensures { result ≡ sheets_usable rates.now tiers factors.now.lower factors.now.upper }
{
    if some_above(rates, RATE_LIMIT) {
        return false;
    }
    if !tiers_usable(tiers) {
        return false;
    }
    if above_par(&factors.lower) {
        return false;
    }
    if above_par(&factors.upper) {
        return false;
    }
    !some_zero(&factors.upper)
}

// No more tiers than a filing may have, of rising edges and annual withdrawals up to their limit.
fn tiers_usable(tiers: FiledTiers) -> bool
    ensures { result ≡ tiers_usable tiers }
{
    if TIER_LIMIT < tiers.count {
        return false;
    }
    let edges = tiers.edges;
    if some_not_rising(&edges, tiers.count) {
        return false;
    }
    let withdrawals = tiers.withdrawals;
    !some_above(&withdrawals, WITHDRAWAL_LIMIT)
}

// One of the first `count` edges is not above the one before it.
fn some_not_rising(edges: &[u16; TIER_LIMIT], count: usize) -> bool
    requires { count ≤ tier_limit }
    ensures { result ≡ any_below (not_rising edges.now) (count - 1) }
{
    (0..count.saturating_sub(1)).any(|i| edges[i + 1] <= edges[i])
}

// One of the numbers is above the limit.
fn some_above(numbers: &[u16], limit: u16) -> bool
    ensures { result ≡ any_below (above_limit limit numbers.now) (length numbers.now) }
{
    numbers.iter().any(|number| limit < *number)
}

// One of the factors is above par.
fn above_par(factors: &[u64]) -> bool
    ensures { result ≡ any_below (above_limit par factors.now) (length factors.now) }
{
    factors.iter().any(|factor| PAR < *factor)
}

// One of the factors is 0.
fn some_zero(factors: &FactorTable) -> bool
    ensures { result ≡ any_below (is_zero factors.now) factor_count }
{
    factors.iter().any(|factor| *factor == 0)
}
