// The withdrawal of a deposit in a month before its term's end, in the seven scenarios, as the levels of the tiers that are reached.
ghost use Rattle.std.specs.Prelude.{◌≡◌, ℕ, ◌<◌, ◌≤◌, get_or};
ghost use Rattle.form.specs.Limits.{rate_limit, months_limit, tier_limit};
ghost use Rattle.form.specs.Shift.{scenario_count, shifted_rate};
ghost use Rattle.withdrawal.specs.Inner.TierArrays.{EdgesFit};
ghost use Rattle.withdrawal.specs.Inner.Incentives.{incentive_from, PartsWithin, Small};
ghost use Rattle.withdrawal_months.specs.TierLevels.{LevelFor, last_level, level_survival};

use form::sub_balances::SCENARIOS;
use form_scenarios::Scenario;
use withdrawal::{CouponParts, FULL_SURVIVAL, Incentive, WithdrawalTiers};
use withdrawal_gain::{gain_above_cost, gain_and_cost};
use withdrawal_search::reached_level;

// Levels of a month with `left` months to go, at a retail rate that is not shifted: one for each scenario. In each of them the highest edge is tried first.
pub(crate) fn month_levels(
    brokered: bool,
    tiers: &WithdrawalTiers,
    parts: CouponParts,
    rate: u16,
    left: u64,
) -> [u8; SCENARIOS]
    requires { EdgesFit tiers.now.count tiers.now.edges × PartsWithin parts × (rate ≤ rate_limit) × (left ≤ months_limit) }
    ensures { (i : ℕ) → i < scenario_count → LevelFor brokered tiers.now (incentive_from parts (shifted_rate i rate) left) (get_or result i 0) }
{
    std::array::from_fn(|i| level_in(i, brokered, tiers, parts, rate, left))
}

// The level of a month in a scenario.
fn level_in(
    scenario: usize,
    brokered: bool,
    tiers: &WithdrawalTiers,
    parts: CouponParts,
    rate: u16,
    left: u64,
) -> u8
    requires { (scenario < scenario_count) × EdgesFit tiers.now.count tiers.now.edges × PartsWithin parts × (rate ≤ rate_limit) × (left ≤ months_limit) }
    ensures { LevelFor brokered tiers.now (incentive_from parts (shifted_rate scenario rate) left) result }
{
    let shifted = Scenario::new(scenario as u8).shifted(rate);
    let incentive = gain_and_cost(parts, shifted, left);
    level_for(brokered, tiers, incentive) as u8
}

// The last level that an account may have.
pub(crate) fn last_level(brokered: bool, tiers: &WithdrawalTiers) -> usize
    ensures { result ≡ last_level brokered tiers.now }
{
    if brokered { 1 } else { tiers.count }
}

// q at a level in billionths.
pub(crate) fn level_survival(brokered: bool, tiers: &WithdrawalTiers, level: usize) -> u64
    requires { tiers.now.count ≤ tier_limit }
    ensures { result ≡ level_survival brokered tiers.now level }
{
    if brokered {
        return if level < 1 { 0 } else { FULL_SURVIVAL };
    }
    tiers.survival_at(level)
}

// The level of an incentive. Brokered money is withdrawn whole, at level 0, or not, at level 1.
fn level_for(brokered: bool, tiers: &WithdrawalTiers, incentive: Incentive) -> usize
    requires { EdgesFit tiers.now.count tiers.now.edges × Small incentive }
    ensures { LevelFor brokered tiers.now incentive result }
{
    if brokered {
        return if gain_above_cost(incentive) { 0 } else { 1 };
    }
    reached_level(tiers.count, &tiers.edges, incentive).level
}
