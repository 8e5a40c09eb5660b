// The months of a deposit before the last: the levels of the tiers that they reach, and what each level makes of a balance.
#![tactic(auto)]

pub mod month_levels;

ghost use Rattle.std.specs.Prelude.{ℕ, ◌≤◌, ◌≡◌, length, get_or};
ghost use Rattle.form.specs.Limits.{coupon_limit, penalty_limit, months_limit, rate_limit, rate_count, tier_limit};
ghost use Rattle.withdrawal.specs.Inner.TierArrays.{EdgesFit};
ghost use Rattle.pricing.specs.Scales.{growth_limit, servicing_limit, par};
ghost use Rattle.withdrawal_months.specs.TierLevels.{last_level, level_survival};
ghost use Rattle.withdrawal_months.specs.Levels.{Levelled, LeftBehind, Multiplied, NothingPast};

use crate::month_levels::{last_level, level_survival, month_levels};
use form::limits::{SHEET_MONTHS, TERM_MONTHS, TIER_LIMIT};
use form::sub_balances::SCENARIOS;
use price_multipliers::{MonthMultipliers, multipliers_of};
use withdrawal::WithdrawalTiers;
use withdrawal_gain::coupon_parts;

// A level for each tier, and one past the last.
pub const LEVELS: usize = TIER_LIMIT + 1;

// Seven levels for each month, one for each scenario.
pub type Levels = [[u8; SCENARIOS]; TERM_MONTHS];

// The multipliers of each level.
pub type LevelMultipliers = [MonthMultipliers; LEVELS];

// Writes the levels of all months but the last, at the retail rates of a column, 1 to 3, which are not shifted. As a slice the room is known to have 120
// months; behind them it is left as it was.
pub fn early_levels(
    brokered: bool,
    coupon: u64,
    penalty: u64,
    months: u64,
    rates: &[u16],
    column: usize,
    tiers: &WithdrawalTiers,
    levels: &mut Levels,
)
    requires coupon_le_coupon_limit { (coupon ≤ coupon_limit) × (penalty ≤ penalty_limit) × (months ≤ months_limit) × EdgesFit tiers.now.count tiers.now.edges }
    requires by_index { ((i : ℕ) → get_or rates.now i 0 ≤ rate_limit) × (1 ≤ column) × (column ≤ 3) × (rate_count ≤ length rates.now) }
    ensures { Levelled brokered coupon penalty months tiers.now rates.now column levels.new
        × LeftBehind months levels.old levels.new }
{
    let parts = coupon_parts(coupon, penalty);
    let list: &mut [[u8; SCENARIOS]] = levels;
    for t in 0..months.saturating_sub(1) {
        let rate = rates[SHEET_MONTHS * (column - 1) + t as usize];
        let left = months - (t + 1);
        list[t as usize] = month_levels(brokered, tiers, parts, rate, left);
    }
}

// The multipliers of the levels that the account may have; past them nothing.
pub fn level_multipliers(
    brokered: bool,
    growth: u64,
    servicing: u64,
    tiers: &WithdrawalTiers,
) -> LevelMultipliers
    requires { (growth ≤ growth_limit) × (servicing ≤ servicing_limit) × (tiers.now.count ≤ tier_limit) × ((i : ℕ) → level_survival brokered tiers.now i ≤ par) }
    ensures { Multiplied brokered growth servicing tiers.now result × NothingPast (last_level brokered tiers.now) result }
{
    let mut multipliers = [MonthMultipliers::NONE; LEVELS];
    for level in 0..last_level(brokered, tiers) + 1 {
        let survival = level_survival(brokered, tiers, level);
        multipliers[level] = multipliers_of(growth, servicing, survival);
    }
    multipliers
}
