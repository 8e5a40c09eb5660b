// Chains of discount factors, seven rates in step: each division by 120,000 + rate is a multiplication by the rate's multiplier.
ghost use Rattle.std.specs.Prelude.{◌≡◌, ℕ, ◌≤◌};
ghost use Rattle.pricing.specs.Scales.{par};
ghost use Rattle.pricing.specs.Rounding.{rounding_of};
ghost use Rattle.pricing.specs.Inner.Multipliers.{next_by, next_all_by, first_by, chained_by, AtMost};

use form::sub_balances::SCENARIOS;
use price_rounding::products::upper_half;
use pricing::PAR;

// Seven chains of n multiplications each: of lower factors, from par, or of one less than upper factors, so that 1 is added before a multiplication and not
// after it.
pub(crate) fn chained(multipliers: &[u64; SCENARIOS], n: u64, up: bool) -> [u64; SCENARIOS]
    requires { (i : ℕ) → AtMost par (chained_by (rounding_of up) multipliers.now i) }
    ensures { result ≡ chained_by (rounding_of up) multipliers.now n }
{
    let first = first_held(up);
    let mut chain = [first; SCENARIOS];
    for _ in 0..n {
        chain = next_in_chain(&chain, multipliers, up);
    }
    chain
}

// What a chain begins with.
fn first_held(up: bool) -> u64
    ensures { result ≡ first_by (rounding_of up) }
{
    if up { PAR - 1 } else { PAR }
}

// The next of each of seven chains.
fn next_in_chain(
    chain: &[u64; SCENARIOS],
    multipliers: &[u64; SCENARIOS],
    up: bool,
) -> [u64; SCENARIOS]
    requires { AtMost par chain.now }
    ensures { result ≡ next_all_by (rounding_of up) chain.now multipliers.now }
{
    std::array::from_fn(|i| next_factor(chain[i], multipliers[i], up))
}

// The floor of a factor times a multiplier. For an upper factor that is one less than the next: its multiplier is too low by less than a factor can bring out.
fn next_factor(held: u64, multiplier: u64, up: bool) -> u64
    requires { held ≤ par }
    ensures { result ≡ next_by (rounding_of up) held multiplier }
{
    if up {
        upper_half(held + 1, multiplier)
    } else {
        upper_half(held, multiplier)
    }
}
