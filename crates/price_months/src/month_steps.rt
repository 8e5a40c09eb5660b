// The run one month on, by multipliers: the lower run, or the upper one where `UP`. `discount` is what a table holds of the month's discount factor.
ghost use Rattle.std.specs.Prelude.{◌≡◌, cond, true, false, ◌*◌, ◌<◌, ◌≤◌};
ghost use Rattle.pricing.specs.Scales.{amount_limit};
ghost use Rattle.pricing.specs.Rounding.{rounding_of};
ghost use Rattle.price_months.specs.Walks.{Raised};
ghost use Rattle.price_multipliers.specs.Multipliers.{carried_of, paid_by, left_by, product_by, step_by, last_by, month_limit};

use price_multipliers::MonthMultipliers;
use price_rounding::products::upper_half;
use pricing::Run;

// The run after a month in which the balance is not yet paid.
pub(crate) fn next<const UP: bool>(run: Run, m: MonthMultipliers, discount: u64) -> Run
    requires within { (run.balance ≤ amount_limit) × (run.price ≤ amount_limit) }
    requires raised { UP ≡ true → Raised m }
    ensures { result ≡ step_by (rounding_of UP) m discount run }
{
    if UP && run.balance == 0 {
        return run;
    }
    let left = left_of::<UP>(run.balance, m);
    let paid = paid_of::<UP>(run.balance, m);
    Run {
        balance: left,
        price: run.price + product_of::<UP>(paid, discount),
    }
}

// The price after the last month, in which what is left is paid.
pub fn last<const UP: bool>(run: Run, m: MonthMultipliers, discount: u64) -> u64
    requires within { (run.balance ≤ amount_limit) × (run.price ≤ amount_limit) }
    requires raised { UP ≡ true → Raised m }
    ensures { result ≡ last_by (rounding_of UP) m discount run }
{
    if UP && run.balance == 0 {
        return run.price;
    }
    let outflow = paid_of::<UP>(run.balance, m);
    let left = left_of::<UP>(run.balance, m);
    run.price + product_of::<UP>(outflow + left, discount)
}

// What a month pays of a balance, and what it leaves. In the upper run a part of something is 1 more than by one less.
fn paid_of<const UP: bool>(balance: u64, m: MonthMultipliers) -> u64
    requires { (balance ≤ amount_limit) × (UP ≡ true → (0 < balance) × (0 < m.paid)) }
    ensures { (result ≡ paid_by (rounding_of UP) m balance) × (result ≤ month_limit) × (UP ≡ true → 0 < result) }
{
    if UP {
        upper_half(2 * balance, m.paid - 1) + 1
    } else {
        upper_half(2 * balance, m.paid)
    }
}

fn left_of<const UP: bool>(balance: u64, m: MonthMultipliers) -> u64
    requires { (balance ≤ amount_limit) × (UP ≡ true → (0 < balance) × (m.carried ≡ carried_of m.left)) }
    ensures { (result ≡ left_by (rounding_of UP) m balance) × (result ≤ month_limit) }
{
    let kept = kept_of(balance, m.whole);
    if UP {
        kept + (upper_half(balance, m.left - m.carried) + m.carried)
    } else {
        kept + upper_half(balance, m.left)
    }
}

// A flow times a discount factor. An upper table holds one less.
fn product_of<const UP: bool>(flow: u64, discount: u64) -> u64
    requires { (flow ≤ 2 * month_limit) × (UP ≡ true → 0 < flow) }
    ensures { (result ≡ product_by (rounding_of UP) discount flow) × (result ≤ 5 * month_limit) × (UP ≡ false → result ≤ 4 * month_limit) }
{
    if UP {
        upper_half(2 * flow, discount) + 1
    } else {
        upper_half(2 * flow, discount)
    }
}

// The balance where it stays whole beside a part of it.
fn kept_of(balance: u64, whole: bool) -> u64
    ensures { (result ≡ cond whole balance 0) × (result ≤ balance) }
{
    if whole { balance } else { 0 }
}
