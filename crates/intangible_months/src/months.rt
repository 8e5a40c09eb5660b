// One month of the run, at either rounding. Balances and sums are in millionths of the opening balance, survivals and discount factors in billionths; the growth
// of a coupon in units of 1 / (3 x 10^9) of the balance.
ghost use Rattle.std.specs.Prelude.{◌≡◌, ◌+◌, ◌*◌, ◌≤◌};
ghost use Rattle.pricing.specs.Scales.{par, coupon_growth};
ghost use Rattle.pricing.specs.Rounding.{rounding_of};
ghost use Rattle.withdrawal.specs.MonthSurvival.{retail};
ghost use Rattle.price_deposits.specs.DepositTerms.{servicing_cost};
ghost use Rattle.intangible.specs.RollingTerms.{share_scale};
ghost use Rattle.intangible.specs.Bounded.{rolled_coupon_limit, rolled_limit};
ghost use Rattle.intangible.specs.Inner.Month.{closing_by, leaving_by, part_by, product_by, early_month, rolling_month, last_sum, Small, figure_limit};

use intangible::Rolled;
use price_rounding::rounding::quotient;
use pricing::PAR;

// The month's servicing cost of retail money in billionths of the balance (01:55).
const SERVICING: u64 = 175_000;

// The scale of a rollover share: thousandths.
pub const SHARE_SCALE: u64 = 1_000;

// A month before the last of its term.
pub fn early_month(run: Rolled, growth: u64, survival: u64, factor: u64, up: bool) -> Rolled
    requires { Small run growth factor × (survival ≤ par) }
    ensures { result ≡ early_month (rounding_of up) growth (servicing_cost retail) survival factor run }
{
    let outflow = leaving(run.balance, survival, up);
    let sum = run.sum + discounted(outflow, factor, up);
    Rolled {
        balance: closing(run.balance, growth, survival, up),
        sum,
    }
}

// The last month of a term: what does not roll over is paid, and what does is what the next month opens with.
pub fn rolling_month(run: Rolled, growth: u64, share: u64, factor: u64, up: bool) -> Rolled
    requires { Small run growth factor × (share ≤ share_scale) }
    ensures { result ≡ rolling_month (rounding_of up) growth (servicing_cost retail) share factor run }
{
    let outflow = leaving(run.balance, PAR, up);
    let balance = closing(run.balance, growth, PAR, up);
    let unrolled = part(balance, SHARE_SCALE - share, up);
    let sum = run.sum + discounted(outflow + unrolled, factor, up);
    Rolled {
        balance: part(balance, share, up),
        sum,
    }
}

// The sum after the last month of all, in which what remains is paid.
pub fn last_sum(run: Rolled, growth: u64, factor: u64, up: bool) -> u64
    requires { Small run growth factor }
    ensures { result ≡ last_sum (rounding_of up) growth (servicing_cost retail) factor run }
{
    let outflow = leaving(run.balance, PAR, up);
    let balance = closing(run.balance, growth, PAR, up);
    run.sum + discounted(outflow + balance, factor, up)
}

// The balance at the end of a month.
pub fn closing(opening: u64, growth: u64, survival: u64, up: bool) -> u64
    requires { (opening ≤ rolled_limit) × (growth ≤ coupon_growth * rolled_coupon_limit) × (survival ≤ par) }
    ensures { (result ≡ closing_by (rounding_of up) growth survival opening) × (result ≤ figure_limit) }
{
    quotient(opening * (growth + 3 * survival), 3 * PAR, up)
}

// A part of a balance in thousandths of it.
pub fn part(balance: u64, share: u64, up: bool) -> u64
    requires { (balance ≤ figure_limit) × (share ≤ share_scale) }
    ensures { (result ≡ part_by (rounding_of up) share balance) × (result ≤ balance) }
{
    quotient(balance * share, SHARE_SCALE, up)
}

// A flow times a discount factor.
pub fn discounted(flow: u64, factor: u64, up: bool) -> u64
    requires { (flow ≤ figure_limit + figure_limit) × (factor ≤ par) }
    ensures { (result ≡ product_by (rounding_of up) factor flow) × (result ≤ flow) }
{
    quotient(flow * factor, PAR, up)
}

// Servicing, on the opening balance, and early withdrawals of a month.
fn leaving(opening: u64, survival: u64, up: bool) -> u64
    requires { (opening ≤ rolled_limit) × (survival ≤ par) }
    ensures { (result ≡ leaving_by (rounding_of up) (servicing_cost retail) survival opening) × (result ≤ figure_limit) }
{
    quotient(opening * (SERVICING + PAR - survival), PAR, up)
}
