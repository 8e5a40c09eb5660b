// The multipliers of a month.
#![tactic(auto)]

pub mod discount_tables;

ghost use Rattle.std.specs.Prelude.{◌≡◌, ◌+◌, ◌*◌, ◌-◌, ◌^◌, ◌<◌, ◌≤◌};
ghost use Rattle.pricing.specs.Scales.{par, growth_limit, servicing_limit};
ghost use Rattle.pricing.specs.Rounding.{up, quotient, rounding_of};
ghost use Rattle.price_multipliers.specs.Multipliers.{beyond, carried_of, par_multiplier, multipliers_of, discount_multiplier};

use price_rounding::products::upper_half;
use pricing::PAR;

// The scale of a month's growth and survivors (01:56).
const GROWTH_SCALE: u64 = 3 * PAR;

// 2^63 / 10^9, rounded up, and by how much that is too high, 283,641 / 1,953,125, in units of 1 / 2^64, rounded up.
const PAR_WHOLE: u64 = 9_223_372_037;

const PAR_OVER: u64 = 2_678_913_503_135_258_077;

// 2^64 / (3 x 10^9): the whole part, and the rest in units of 1 / (3 x 10^9).
const GROWTH_WHOLE: u64 = 6_148_914_691;

const GROWTH_REST: u64 = 709_551_616;

// What a month makes of a balance, in units of 1 / 2^64: what is paid of twice the balance, and what is left of the balance, which stays whole beside that or
// not. `carried` is 1, or 0 where `left` is.
#[derive(Clone, Copy)]
pub struct MonthMultipliers {
    pub paid: u64,
    pub left: u64,
    pub carried: u64,
    pub whole: bool,
}

impl MonthMultipliers {
    // Nothing is paid and nothing left.
    pub const NONE: Self = Self {
        paid: 0,
        left: 0,
        carried: 0,
        whole: false,
    };
}

// The multipliers of a month, from the growth of its coupon, its servicing cost and its survival.
pub fn multipliers_of(growth: u64, servicing: u64, survival: u64) -> MonthMultipliers
    requires { (growth ≤ growth_limit) × (servicing ≤ servicing_limit) × (survival ≤ par) }
    ensures { result ≡ multipliers_of growth servicing survival }
{
    let share = grown_share(growth, survival);
    let whole = GROWTH_SCALE <= share;
    let left = left_multiplier(beyond_whole(share));
    MonthMultipliers {
        paid: par_multiplier(servicing + PAR - survival),
        left,
        carried: carried_of(left),
        whole,
    }
}

// What a month makes of a balance of 3 x 10^9: the interest on all of it, and what survives.
fn grown_share(growth: u64, survival: u64) -> u64
    requires { (growth ≤ growth_limit) × (survival ≤ par) }
    ensures { result ≡ growth + 3 * survival }
{
    growth + 3 * survival
}

// What of a share in units of 1 / (3 x 10^9) is beyond the whole.
fn beyond_whole(share: u64) -> u64
    requires { share ≤ growth_limit + 3 * par }
    ensures { (result ≡ beyond share) × (result < 3 * par) }
{
    if GROWTH_SCALE <= share {
        share - GROWTH_SCALE
    } else {
        share
    }
}

// What an upper part is more than by one less.
fn carried_of(left: u64) -> u64
    ensures { result ≡ carried_of left }
{
    if left == 0 { 0 } else { 1 }
}

// What a table holds of a discount factor in billionths: its multiplier, and in an upper table one less.
pub(crate) fn discount_multiplier(factor: u64, up: bool) -> u64
    requires { factor ≤ par }
    ensures { result ≡ discount_multiplier (rounding_of up) factor }
{
    let multiplier = par_multiplier(factor);
    if up {
        multiplier.saturating_sub(1)
    } else {
        multiplier
    }
}

// n / 10^9 in units of 1 / 2^63, rounded up.
fn par_multiplier(n: u64) -> u64
    requires { n ≤ par + servicing_limit }
    ensures { result ≡ par_multiplier n }
{
    PAR_WHOLE * n - upper_half(n, PAR_OVER)
}

// n / (3 x 10^9) in units of 1 / 2^64, rounded up.
fn left_multiplier(n: u64) -> u64
    requires { n < 3 * par }
    ensures { result ≡ quotient up (n * 2 ^ 64) (3 * par) }
{
    GROWTH_WHOLE * n + (GROWTH_REST * n + (GROWTH_SCALE - 1)) / GROWTH_SCALE
}
