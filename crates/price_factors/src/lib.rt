// Discount factors of every month and scenario, written into two lists.
#![tactic(auto)]

pub mod factor_chains;
pub mod month_factors;
pub mod rate_multipliers;

ghost use Rattle.std.specs.Prelude.{◌≡◌, suc, ◌+◌, ◌*◌, ◌≤◌, length, replicate};
ghost use Rattle.lists.specs.Runs.{written};
ghost use Rattle.form.specs.Limits.{months_limit, rate_limit};
ghost use Rattle.form.specs.Shift.{scenario_count, shifted_rates};
ghost use Rattle.form.specs.Counts.{factor_count};
ghost use Rattle.pricing.specs.Rounding.{down, up};
ghost use Rattle.pricing.specs.Inner.Multipliers.{discounts_by};
ghost use Rattle.price_factors.specs.Inner.Factors.{factors_by, WithinRates};

use crate::month_factors::{lower_factors, upper_factors};
use crate::rate_multipliers::upper_multipliers;
use form::limits::TERM_MONTHS;
use form::sub_balances::SCENARIOS;
use form_scenarios::shifted_rates;
use lists::write;

// A factor for each month and scenario.
pub const FACTORS: usize = SCENARIOS * TERM_MONTHS;

// Seven factors for each month, in billionths: month t and scenario s stand at index 7 (t - 1) + s.
pub type FactorTable = [u64; FACTORS];

// The lower and the upper factors of a sheet of CD yields, written into tables of zeros. Months past the longest term are left 0.
pub fn fill_factors(yields: &[u16], longest: u64, lower: &mut FactorTable, upper: &mut FactorTable)
    requires { WithinRates yields.now × (months_limit ≤ length yields.now) × (lower.old ≡ replicate factor_count 0) × (upper.old ≡ replicate factor_count 0) }
    ensures { (lower.new ≡ factors_by down yields.now longest) × (upper.new ≡ factors_by up yields.now longest) }
{
    for month in 0..TERM_MONTHS {
        if longest <= month as u64 {
            return;
        }
        fill_month(yields[month], month, lower, upper);
    }
}

// The factors of a month, counted from 0, in the seven scenarios, by its yield. The lower ones are written before the upper ones are made, so that both are made
// in registers.
pub fn fill_month(rate: u16, month: usize, lower: &mut [u64], upper: &mut [u64])
    requires { (rate ≤ rate_limit) × (scenario_count * month + scenario_count ≤ length lower.old) × (scenario_count * month + scenario_count ≤ length upper.old) }
    ensures { (lower.new ≡ written lower.old (scenario_count * month) (discounts_by down (shifted_rates rate) (suc month)))
        × (upper.new ≡ written upper.old (scenario_count * month) (discounts_by up (shifted_rates rate) (suc month))) }
{
    let n = month as u64 + 1;
    let rates = shifted_rates(rate);
    let above = upper_multipliers(&rates);
    let below = lower_factors(&rates, &above, n);
    write(lower, SCENARIOS * month, &below);
    let seven = upper_factors(&above, n);
    write(upper, SCENARIOS * month, &seven);
}
