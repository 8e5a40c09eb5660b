// Tables of the multipliers of discount factors, of every month and scenario.
ghost use Rattle.std.specs.Prelude.{◌≡◌, ◌≤◌, length, replicate};
ghost use Rattle.form.specs.Limits.{months_limit};
ghost use Rattle.form.specs.Counts.{factor_count};
ghost use Rattle.pricing.specs.Rounding.{down, up, rounding_of};
ghost use Rattle.price_factors.specs.Inner.Factors.{factors_by, WithinRates, AtMostPar};
ghost use Rattle.price_multipliers.specs.Inner.Tables.{HoldsFactors, SameBehind};

use crate::discount_multiplier;
use form::sub_balances::SCENARIOS;
use price_factors::{FACTORS, FactorTable, fill_factors};
use pricing::Bounds;

// Multipliers of the factors, in their entries.
pub type MultiplierTable = [u64; FACTORS];

// The multipliers of the lower and the upper factors of a sheet of CD yields up to the longest term, written into tables of zeros.
pub fn discount_tables(yields: &[u16], longest: u64, discounts: &mut Bounds<MultiplierTable>)
    requires { WithinRates yields.now × (months_limit ≤ length yields.now) × (longest ≤ months_limit) × (discounts.old.lower ≡ replicate factor_count 0) × (discounts.old.upper ≡ replicate factor_count 0) }
    ensures { HoldsFactors down longest (factors_by down yields.now longest) discounts.new.lower × HoldsFactors up longest (factors_by up yields.now longest) discounts.new.upper
        × SameBehind longest (factors_by down yields.now longest) discounts.new.lower × SameBehind longest (factors_by up yields.now longest) discounts.new.upper }
{
    fill_factors(yields, longest, &mut discounts.lower, &mut discounts.upper);
    to_multipliers(&mut discounts.lower, longest, false);
    to_multipliers(&mut discounts.upper, longest, true);
}

// Puts the multipliers of the factors of some months in the factors' entries: for the lower run, or for the upper one, whose table holds one less. As a
// slice the table is known to have its 840 entries.
pub fn to_multipliers(table: &mut FactorTable, months: u64, up: bool)
    requires { AtMostPar table.old × (months ≤ months_limit) }
    ensures { HoldsFactors (rounding_of up) months table.old table.new × SameBehind months table.old table.new }
{
    let count = SCENARIOS * months as usize;
    let list: &mut [u64] = table;
    for i in 0..count {
        list[i] = discount_multiplier(list[i], up);
    }
}
