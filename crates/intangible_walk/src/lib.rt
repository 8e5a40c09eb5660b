// The walk of the intangible to month 360 (02:CR 9): a term ends in a rollover, and a rollover opens the next term, until what remains is paid.
#![tactic(auto)]

pub mod steps;

ghost use Rattle.std.specs.Prelude.{◌≡◌, suc, ◌<◌};
ghost use Rattle.form.specs.Shift.{scenario_count};
ghost use Rattle.intangible.specs.RollingTerms.{RollingTerms, last_month};
ghost use Rattle.intangible_months.specs.Inner.Lent.{lent_terms};
ghost use Rattle.intangible_walk.specs.Inner.Walks.{Walkable, InTerm, RollsOver, sums_by, factors_at};

use crate::steps::next_term;
use form::sub_balances::SCENARIOS;
use intangible::{LAST_MONTH, Rolled};
use intangible_months::{RetailCell, Term};
use pricing::Bounds;
use withdrawal::WithdrawalTiers;

// A discount factor for each of 360 months and seven scenarios, in billionths: month t and scenario s stand at index 7 (t - 1) + s.
pub const LONG_FACTORS: usize = SCENARIOS * 360;

pub type LongFactors = [u64; LONG_FACTORS];

// What cells are walked by: retail rates that are not shifted, the tiers of early withdrawal, and lower and upper discount factors.
#[derive(Clone, Copy)]
pub struct Market<'a> {
    pub rates: &'a [u16],
    pub tiers: &'a WithdrawalTiers,
    pub factors: &'a Bounds<LongFactors>,
}

impl<'a> Market<'a> {
    // The discount factors of month t + 1 in a scenario.
    pub fn factors_after(&self, t: u64, scenario: usize) -> Bounds<u64>
        requires { (t < last_month) × (scenario < scenario_count) }
        ensures { result ≡ factors_at scenario self.now.factors.now.lower self.now.factors.now.upper (suc t) }
    {
        let i = SCENARIOS * t as usize + scenario;
        Bounds {
            lower: self.factors.lower[i],
            upper: self.factors.upper[i],
        }
    }
}

// Where a walk stands after some months: the lower and the upper run.
#[derive(Clone, Copy)]
pub struct Walk {
    pub month: u64,
    pub runs: Bounds<Rolled>,
}

// The months of a term from where the walk stands: those before its last, and then a rollover, unless month 360 comes first. Answers the sums of the two runs, in
// millionths of the opening balance. In the contracts k is the cell's terms in the scenario.
#[cycle(roll_over_walk_term)]
pub fn walk_term<'a>(
    w: Walk,
    term: Term,
    cell: RetailCell,
    scenario: usize,
    market: &Market<'a>,
) -> Bounds<u64>
    requires walkable { let k : RollingTerms = lent_terms cell scenario market.now.rates.now market.now.tiers.now in Walkable k cell.column scenario market.now.rates.now market.now.tiers.now market.now.factors.now.lower market.now.factors.now.upper }
    requires in_term { let k : RollingTerms = lent_terms cell scenario market.now.rates.now market.now.tiers.now in InTerm k scenario market.now.factors.now.lower market.now.factors.now.upper term w }
    ensures { let k : RollingTerms = lent_terms cell scenario market.now.rates.now market.now.tiers.now in result ≡ sums_by k scenario market.now.factors.now.lower market.now.factors.now.upper }
{
    let last = term.end.min(LAST_MONTH);
    let mut at = w;
    // A `while`: the walk itself counts its months.
    while at.month + 1 < last {
        at = at.early(term, cell.column, scenario, market);
    }
    if term.end < LAST_MONTH {
        return roll_over(at, term, cell, scenario, market);
    }
    at.paid_out(term.coupon, scenario, market)
}

// The last month of a term: the part that rolls over opens the next one.
#[cycle(roll_over_walk_term)]
fn roll_over<'a>(
    w: Walk,
    term: Term,
    cell: RetailCell,
    scenario: usize,
    market: &Market<'a>,
) -> Bounds<u64>
    requires walkable { let k : RollingTerms = lent_terms cell scenario market.now.rates.now market.now.tiers.now in Walkable k cell.column scenario market.now.rates.now market.now.tiers.now market.now.factors.now.lower market.now.factors.now.upper }
    requires in_term { let k : RollingTerms = lent_terms cell scenario market.now.rates.now market.now.tiers.now in InTerm k scenario market.now.factors.now.lower market.now.factors.now.upper term w }
    requires rolls_over { let k : RollingTerms = lent_terms cell scenario market.now.rates.now market.now.tiers.now in RollsOver k term w }
    ensures { let k : RollingTerms = lent_terms cell scenario market.now.rates.now market.now.tiers.now in result ≡ sums_by k scenario market.now.factors.now.lower market.now.factors.now.upper }
{
    let next = w.rolled(term.coupon, cell.share, scenario, market);
    let opened = next_term(next.month, cell, scenario, market.rates);
    walk_term(next, opened, cell, scenario, market)
}
