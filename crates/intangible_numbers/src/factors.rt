// Discount factors of every month to 360 and every scenario.
ghost use Rattle.std.specs.Prelude.{◌≡◌, ◌≤◌, ◌<◌, length, replicate};
ghost use Rattle.form.specs.Limits.{sheet_months, rate_limit};
ghost use Rattle.pricing.specs.Rounding.{down, up};
ghost use Rattle.price_factors.specs.Inner.Factors.{WithinRates};
ghost use Rattle.intangible.specs.RollingTerms.{last_month};
ghost use Rattle.intangible_numbers.specs.Sheets.{yield_in};
ghost use Rattle.intangible_numbers.specs.Inner.Limits.{long_months, long_factor_count, long_factors};

use form::limits::SHEET_MONTHS;
use intangible::LAST_MONTH;
use intangible_walk::LongFactors;
use price_factors::fill_month;
use pricing::Bounds;

// The lower and the upper factors of the yields of months 1 to 120 and 121 to 360, written into tables of zeros.
pub(crate) fn fill_long(yields: &[u16], long: &[u16], factors: &mut Bounds<LongFactors>)
    requires within_rates { WithinRates yields.now × WithinRates long.now × (sheet_months ≤ length yields.now) × (long_months ≤ length long.now) }
    requires zeros { (factors.old.lower ≡ replicate long_factor_count 0) × (factors.old.upper ≡ replicate long_factor_count 0) }
    ensures { (factors.new.lower ≡ long_factors down yields.now long.now) × (factors.new.upper ≡ long_factors up yields.now long.now) }
{
    for month in 0..LAST_MONTH as usize {
        let rate = yield_in(yields, long, month);
        fill_month(rate, month, &mut factors.lower, &mut factors.upper);
    }
}

// The yield of a month, counted from 0.
fn yield_in(yields: &[u16], long: &[u16], month: usize) -> u16
    requires { WithinRates yields.now × WithinRates long.now × (sheet_months ≤ length yields.now) × (long_months ≤ length long.now) × (month < last_month) }
    ensures { (result ≡ yield_in yields.now long.now month) × (result ≤ rate_limit) }
{
    if month < SHEET_MONTHS {
        yields[month]
    } else {
        long[month - SHEET_MONTHS]
    }
}
