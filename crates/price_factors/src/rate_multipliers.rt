// The multipliers of seven rates: a multiplication by one stands for a division by 120,000 + rate.
ghost use Rattle.std.specs.Prelude.{◌≡◌, ◌≤◌};
ghost use Rattle.form.specs.Shift.{shifted_limit};
ghost use Rattle.pricing.specs.Rounding.{down, up};
ghost use Rattle.pricing.specs.Inner.Multipliers.{multiplier_by, multipliers_by, AtMost};

use form::sub_balances::SCENARIOS;

// The scale of a yield as a month's rate (01:58).
const RATE_SCALE: u64 = 120_000;

// 2^64 - 1.
const LARGEST: u64 = 18_446_744_073_709_551_615;

// The multipliers of seven rates for their upper factors: too low by less than a factor can bring out. Each rate is divided by once.
pub(crate) fn upper_multipliers(rates: &[u64; SCENARIOS]) -> [u64; SCENARIOS]
    requires { AtMost shifted_limit rates.now }
    ensures { result ≡ multipliers_by up rates.now }
{
    std::array::from_fn(|i| upper_multiplier(rates[i]))
}

// The multiplier of a rate for its upper factors.
fn upper_multiplier(rate: u64) -> u64
    requires { rate ≤ shifted_limit }
    ensures { result ≡ multiplier_by up rate }
{
    RATE_SCALE * (LARGEST / (RATE_SCALE + rate))
}

// The multipliers for the lower factors, from those for the upper ones: not one function for both, so that each rate is divided by once.
pub(crate) fn lower_multipliers(
    rates: &[u64; SCENARIOS],
    above: &[u64; SCENARIOS],
) -> [u64; SCENARIOS]
    requires { AtMost shifted_limit rates.now × (above.now ≡ multipliers_by up rates.now) }
    ensures { result ≡ multipliers_by down rates.now }
{
    std::array::from_fn(|i| lower_multiplier(rates[i], above[i]))
}

// The multiplier of a rate for its lower factors: one part more, too high by less than a factor can bring out. That of a rate of 0 would be 2^64, and is not used.
fn lower_multiplier(rate: u64, above: u64) -> u64
    requires { (rate ≤ shifted_limit) × (above ≡ multiplier_by up rate) }
    ensures { result ≡ multiplier_by down rate }
{
    if rate == 0 { 0 } else { above + RATE_SCALE }
}
