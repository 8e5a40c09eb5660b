// The discount factors of a month, of seven rates, from their chains.
ghost use Rattle.std.specs.Prelude.{◌≡◌, ℕ, suc, get_or};
ghost use Rattle.lists.specs.Tables.{table};
ghost use Rattle.form.specs.Shift.{scenario_count, shifted_limit};
ghost use Rattle.pricing.specs.Scales.{par};
ghost use Rattle.pricing.specs.Rounding.{down, up};
ghost use Rattle.pricing.specs.Inner.Multipliers.{multipliers_by, chained_by, factor_by, discounts_by, AtMost};

use crate::factor_chains::chained;
use crate::rate_multipliers::lower_multipliers;
use form::sub_balances::SCENARIOS;
use pricing::PAR;

// The lower discount factors of seven rates after n monthly factors each, in billionths, from the multipliers of the upper ones. The rates, CD yields, are in
// hundredths of a percent a year.
pub(crate) fn lower_factors(
    rates: &[u64; SCENARIOS],
    above: &[u64; SCENARIOS],
    n: u64,
) -> [u64; SCENARIOS]
    requires { AtMost shifted_limit rates.now × (above.now ≡ multipliers_by up rates.now) }
    ensures { result ≡ discounts_by down rates.now n }
{
    let below = lower_multipliers(rates, above);
    let chain = chained(&below, n, false);
    std::array::from_fn(|i| lower_factor(rates[i], chain[i]))
}

// The upper discount factors of seven rates after n monthly factors each, in billionths, from their multipliers: 1 more than their chains. Not one function
// with `lower_factors`, which makes multipliers of its own and reads the rates.
pub(crate) fn upper_factors(above: &[u64; SCENARIOS], n: u64) -> [u64; SCENARIOS]
    requires { (i : ℕ) → AtMost par (chained_by up above.now i) }
    ensures { result ≡ table scenario_count (λ i. suc (get_or (chained_by up above.now n) i 0)) }
{
    let chain = chained(above, n, true);
    std::array::from_fn(|i| chain[i] + 1)
}

// A lower factor, from its chain: a rate of 0 leaves par.
fn lower_factor(rate: u64, held: u64) -> u64
    ensures { result ≡ factor_by down rate held }
{
    if rate == 0 { PAR } else { held }
}
