// The filed term of a cell: its balances at the end of its last month, and what of them rolls over.
ghost use Rattle.std.specs.Prelude.{◌≡◌, ◌<◌, ◌≤◌};
ghost use Rattle.form.specs.Shift.{scenario_count};
ghost use Rattle.withdrawal.specs.Inner.TierArrays.{EdgesFit};
ghost use Rattle.price_deposits.specs.Inner.Prices.{ColumnRates};
ghost use Rattle.intangible.specs.RollingTerms.{RollingTerms};
ghost use Rattle.intangible.specs.Bounded.{RollingBounded, rolled_coupon_limit};
ghost use Rattle.intangible.specs.Inner.Month.{figure_limit};
ghost use Rattle.intangible_months.specs.Inner.Lent.{lent_terms};
ghost use Rattle.intangible_cells.specs.Inner.Filed.{balances_at, rolled_bounds};

use intangible::FIRST_BALANCE;
use intangible_months::RetailCell;
use intangible_months::months::{closing, part};
use intangible_months::rates::rate_in;
use intangible_months::survivals::early_survival;
use intangible_walk::Market;
use intangible_walk::steps::COUPON_GROWTH;
use pricing::{Bounds, PAR};

// What of the balances rolls over at the end of the filed term, each part rounded on its own. In the contracts k is the cell's terms in the scenario.
pub(crate) fn rolled_balances<'a>(
    cell: RetailCell,
    scenario: usize,
    market: &Market<'a>,
) -> Bounds<u64>
    requires { let k : RollingTerms = lent_terms cell scenario market.now.rates.now market.now.tiers.now in RollingBounded rolled_coupon_limit k × ColumnRates market.now.rates.now cell.column × (scenario < scenario_count) × EdgesFit market.now.tiers.now.count market.now.tiers.now.edges }
    ensures { let k : RollingTerms = lent_terms cell scenario market.now.rates.now market.now.tiers.now in (result ≡ rolled_bounds k) × (result.lower ≤ figure_limit) × (result.upper ≤ figure_limit) }
{
    let filed = filed_balances(cell, scenario, market);
    Bounds {
        lower: part(filed.lower, cell.share, false),
        upper: part(filed.upper, cell.share, true),
    }
}

// The balances at the end of the filed term, without penalty.
fn filed_balances<'a>(cell: RetailCell, scenario: usize, market: &Market<'a>) -> Bounds<u64>
    requires { let k : RollingTerms = lent_terms cell scenario market.now.rates.now market.now.tiers.now in RollingBounded rolled_coupon_limit k × ColumnRates market.now.rates.now cell.column × (scenario < scenario_count) × EdgesFit market.now.tiers.now.count market.now.tiers.now.edges }
    ensures { let k : RollingTerms = lent_terms cell scenario market.now.rates.now market.now.tiers.now in (result ≡ balances_at k k.months) × (result.lower ≤ figure_limit) × (result.upper ≤ figure_limit) }
{
    let growth = COUPON_GROWTH * cell.coupon;
    let mut lower = FIRST_BALANCE;
    let mut upper = FIRST_BALANCE;
    for t in 0..cell.months - 1 {
        let month = t + 1;
        let rate = rate_in(market.rates, cell.column, scenario, month);
        let survival = early_survival(cell.coupon, rate, cell.months - month, market.tiers);
        lower = closing(lower, growth, survival, false);
        upper = closing(upper, growth, survival, true);
    }
    Bounds {
        lower: closing(lower, growth, PAR, false),
        upper: closing(upper, growth, PAR, true),
    }
}
