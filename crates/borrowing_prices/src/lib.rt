// One borrowing in each scenario: its lower and upper values (02:CR 8).
#![tactic(auto)]

ghost use Rattle.std.specs.Prelude.{◌≡◌, suc, ◌+◌, ◌*◌, ◌≤◌, ◌<◌};
ghost use Rattle.form.specs.Limits.{balance_limit, filed_coupon_limit, months_limit};
ghost use Rattle.form.specs.Shift.{scenario_count};
ghost use Rattle.pricing.specs.Scales.{par, amount_limit};
ghost use Rattle.pricing.specs.Rounding.{rounding_of};
ghost use Rattle.pricing.specs.Rounding as spec;
ghost use Rattle.price_factors.specs.Inner.Factors.{factor_in, AtMostPar};
ghost use Rattle.borrowing_prices.specs.Run.{interest_limit, interest_by, flow_with};
ghost use Rattle.borrowing_prices.specs.Inner.Tabled.{tabled_price, bounds_with, tabled_values};

use form::sub_balances::{PLACE_VALUES, SCENARIOS};
use lists::write;
use price_factors::FactorTable;
use price_rounding::rounding::quotient;
use price_rounding::values::value_of;
use pricing::{Bounds, PAR};

// Values in dollars of a balance in thousands of dollars with a coupon in hundredths of a percent a year: lower, upper, lower, upper and so on by scenario.
// The tables hold the discount factors. A zero balance walks no month.
pub fn values_of(
    balance: u64,
    coupon: u64,
    months: u64,
    factors: &Bounds<FactorTable>,
) -> [u64; PLACE_VALUES]
    requires { (balance ≤ balance_limit) × (coupon ≤ filed_coupon_limit) × (months ≤ months_limit) × AtMostPar factors.now.lower × AtMostPar factors.now.upper }
    ensures { result ≡ tabled_values balance coupon months factors.now.lower factors.now.upper }
{
    let mut values = [0; PLACE_VALUES];
    if balance == 0 {
        return values;
    }
    let interest = Bounds {
        lower: interest_of(coupon, false),
        upper: interest_of(coupon, true),
    };
    for scenario in 0..SCENARIOS {
        let two = bounds_in(balance, interest, months, factors, scenario);
        write(&mut values, 2 * scenario, &two);
    }
    values
}

// The lower and the upper value in a scenario, at the lower and the upper interest of a month.
fn bounds_in(
    balance: u64,
    interest: Bounds<u64>,
    months: u64,
    factors: &Bounds<FactorTable>,
    scenario: usize,
) -> [u64; 2]
    requires { (balance ≤ balance_limit) × (interest.lower ≤ interest_limit) × (interest.upper ≤ interest_limit) × (months ≤ months_limit) × (scenario < scenario_count) × AtMostPar factors.now.lower × AtMostPar factors.now.upper }
    ensures { result ≡ bounds_with balance interest.lower interest.upper months factors.now.lower factors.now.upper scenario }
{
    let least = price_of(interest.lower, months, &factors.lower, scenario, false);
    let most = price_of(interest.upper, months, &factors.upper, scenario, true);
    [
        value_of(balance, least, false),
        value_of(balance, most, true),
    ]
}

// The interest of a month in billionths of the balance.
fn interest_of(coupon: u64, up: bool) -> u64
    requires { coupon ≤ filed_coupon_limit }
    ensures { (result ≡ interest_by (rounding_of up) coupon) × (result ≤ interest_limit) }
{
    quotient(PAR * coupon, 120_000, up)
}

// The price in billionths at a month's interest: the sum of its months' products.
fn price_of(interest: u64, months: u64, factors: &FactorTable, scenario: usize, up: bool) -> u64
    requires { (interest ≤ interest_limit) × (months ≤ months_limit) × (scenario < scenario_count) × AtMostPar factors.now }
    ensures { (result ≡ tabled_price (rounding_of up) interest months factors.now scenario) × (result ≤ amount_limit) }
{
    let mut price = 0;
    for t in 0..months {
        price += product_in(interest, months, t, factors, scenario, up);
    }
    price
}

// The flow of month t + 1 times its discount factor.
fn product_in(
    interest: u64,
    months: u64,
    t: u64,
    factors: &FactorTable,
    scenario: usize,
    up: bool,
) -> u64
    requires { (interest ≤ interest_limit) × (t < months_limit) × (scenario < scenario_count) × AtMostPar factors.now }
    ensures { result ≡ spec.quotient (rounding_of up) (flow_with interest months t * factor_in factors.now scenario (suc t)) par }
{
    let flow = flow_of(interest, months, t);
    let factor = factors[SCENARIOS * t as usize + scenario];
    quotient(flow * factor, PAR, up)
}

// The flow of month t + 1: in the last month the balance is paid too.
fn flow_of(interest: u64, months: u64, t: u64) -> u64
    requires { (interest ≤ interest_limit) × (t < months_limit) }
    ensures { (result ≡ flow_with interest months t) × (result ≤ interest_limit + par) }
{
    interest + if t + 1 == months { PAR } else { 0 }
}
