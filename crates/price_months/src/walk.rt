// The run over all months but the last.
ghost use Rattle.std.specs.Prelude.{◌≡◌, ◌-◌, ◌<◌, ◌≤◌};
ghost use Rattle.form.specs.Limits.{months_limit};
ghost use Rattle.form.specs.Shift.{scenario_count};
ghost use Rattle.pricing.specs.Rounding.{down, up};
ghost use Rattle.withdrawal_months.specs.Levels.{level_at};
ghost use Rattle.price_months.specs.Walks.{walked_by, Walkable};

use crate::month_steps::next;
use form::sub_balances::SCENARIOS;
use price_multipliers::discount_tables::MultiplierTable;
use pricing::{Bounds, PAR, Run};
use withdrawal_months::{LevelMultipliers, Levels};

// The lower and the upper run after all months but the last. The tables hold the multipliers of the discount factors.
pub fn early_months(
    months: u64,
    levels: &Levels,
    multipliers: &LevelMultipliers,
    discounts: &Bounds<MultiplierTable>,
    scenario: usize,
) -> Bounds<Run>
    requires months_nonzero { (0 < months) × (months ≤ months_limit) × (scenario < scenario_count) }
    requires walkable { Walkable down multipliers.now levels.now discounts.now.lower scenario months }
    requires walkable_2 { Walkable up multipliers.now levels.now discounts.now.upper scenario months }
    ensures lower_value { result.lower ≡ walked_by down multipliers.now levels.now discounts.now.lower scenario (months - 1) }
    ensures upper_value { result.upper ≡ walked_by up multipliers.now levels.now discounts.now.upper scenario (months - 1) }
{
    let start = Run {
        balance: PAR,
        price: 0,
    };
    let mut lower = start;
    let mut upper = start;
    for t in 0..months - 1 {
        let level = level_at(levels, t as usize, scenario);
        let m = multipliers[level];
        let i = SCENARIOS * t as usize + scenario;
        lower = next::<false>(lower, m, discounts.lower[i]);
        upper = next::<true>(upper, m, discounts.upper[i]);
    }
    Bounds { lower, upper }
}

// The level of a month, counted from 0, in a scenario.
fn level_at(levels: &Levels, month: usize, scenario: usize) -> usize
    requires { (month < months_limit) × (scenario < scenario_count) }
    ensures { result ≡ level_at levels.now month scenario }
{
    usize::from(levels[month][scenario])
}
