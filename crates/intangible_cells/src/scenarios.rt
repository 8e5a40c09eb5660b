// One cell in a scenario: its lower and upper intangible.
ghost use Rattle.std.specs.Prelude.{◌≡◌, ◌^◌, ◌<◌, ◌≤◌, pos, ◌-ℤ◌};
ghost use Rattle.form.specs.Limits.{months_limit};
ghost use Rattle.form.specs.Shift.{scenario_count};
ghost use Rattle.price_factors.specs.Inner.Factors.{AtMostPar};
ghost use Rattle.intangible.specs.RollingTerms.{RollingTerms};
ghost use Rattle.intangible.specs.Inner.Month.{figure_limit};
ghost use Rattle.intangible_months.specs.Inner.Lent.{lent_terms};
ghost use Rattle.intangible_walk.specs.Inner.Walks.{Walkable};
ghost use Rattle.intangible_cells.specs.Inner.Filed.{products_of, intangible_by};

use crate::filed_term::rolled_balances;
use intangible::Rolled;
use intangible_months::RetailCell;
use intangible_months::months::discounted;
use intangible_walk::steps::next_term;
use intangible_walk::{Market, Walk, walk_term};
use pricing::Bounds;

// The lower result is the lower first product less the upper sum, the upper one the reverse. In the contracts k is the cell's terms in the scenario.
pub fn intangible_in<'a>(cell: RetailCell, scenario: usize, market: &Market<'a>) -> [i64; 2]
    requires { let k : RollingTerms = lent_terms cell scenario market.now.rates.now market.now.tiers.now in Walkable k cell.column scenario market.now.rates.now market.now.tiers.now market.now.factors.now.lower market.now.factors.now.upper }
    ensures { let k : RollingTerms = lent_terms cell scenario market.now.rates.now market.now.tiers.now in result ≡ intangible_by k scenario market.now.factors.now.lower market.now.factors.now.upper }
{
    let rolled = rolled_balances(cell, scenario, market);
    let first = first_products(rolled, cell.months, scenario, market);
    let start = walk_from(rolled, cell.months);
    let term = next_term(cell.months, cell, scenario, market.rates);
    let sums = walk_term(start, term, cell, scenario, market);
    [
        difference(first.lower, sums.upper),
        difference(first.upper, sums.lower),
    ]
}

// What rolls over at the end of the filed term, times its discount factors.
fn first_products<'a>(
    rolled: Bounds<u64>,
    months: u64,
    scenario: usize,
    market: &Market<'a>,
) -> Bounds<u64>
    requires { (rolled.lower ≤ figure_limit) × (rolled.upper ≤ figure_limit) × (0 < months) × (months ≤ months_limit) × (scenario < scenario_count) × AtMostPar market.now.factors.now.lower × AtMostPar market.now.factors.now.upper }
    ensures { (result ≡ products_of rolled months scenario market.now.factors.now.lower market.now.factors.now.upper) × (result.lower ≤ figure_limit) × (result.upper ≤ figure_limit) }
{
    let factors = market.factors_after(months - 1, scenario);
    Bounds {
        lower: discounted(rolled.lower, factors.lower, false),
        upper: discounted(rolled.upper, factors.upper, true),
    }
}

// The walk as it begins after the filed term: nothing is summed yet.
fn walk_from(rolled: Bounds<u64>, months: u64) -> Walk
    ensures { result ≡ record { month = months; runs = record { lower = record { balance = rolled.lower; sum = 0 }; upper = record { balance = rolled.upper; sum = 0 } } } }
{
    let lower = Rolled {
        balance: rolled.lower,
        sum: 0,
    };
    let upper = Rolled {
        balance: rolled.upper,
        sum: 0,
    };
    Walk {
        month: months,
        runs: Bounds { lower, upper },
    }
}

fn difference(a: u64, b: u64) -> i64
    requires { (a < 2 ^ 63) × (b < 2 ^ 63) }
    ensures { result ≡ pos a -ℤ pos b }
{
    a as i64 - b as i64
}
