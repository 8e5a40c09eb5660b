// The steps of a walk, in the lower and the upper run: a month of a term, a term's last month, the term that opens after it, and the last month of all.
ghost use Rattle.std.specs.Prelude.{◌≡◌, suc, ◌+◌, ◌*◌, ◌-◌, ◌<◌, ◌≤◌};
ghost use Rattle.form.specs.Limits.{months_limit};
ghost use Rattle.form.specs.Shift.{scenario_count};
ghost use Rattle.withdrawal.specs.Inner.TierArrays.{EdgesFit};
ghost use Rattle.pricing.specs.Scales.{par};
ghost use Rattle.price_deposits.specs.Inner.Prices.{ColumnRates};
ghost use Rattle.intangible.specs.RollingTerms.{share_scale, last_month};
ghost use Rattle.intangible_months.specs.Rates.{rolling_rate};
ghost use Rattle.intangible_months.specs.Inner.Lent.{lent_survival};
ghost use Rattle.intangible_walk.specs.Inner.Walks.{early_walk, rolling_walk, last_sums, SmallWalk};

use crate::{Market, Walk};
use intangible_months::months::{early_month, last_sum, rolling_month};
use intangible_months::rates::rate_in;
use intangible_months::survivals::early_survival;
use intangible_months::{RetailCell, Term};
use pricing::Bounds;

// The growth of a coupon of one thousandth of a percent a year, in units of 1 / (3 x 10^9) of the balance (01:56; 02:CR 4).
pub const COUPON_GROWTH: u64 = 2_500;

impl Walk {
    // A month before the last of its term.
    pub(crate) fn early<'a>(
        self,
        term: Term,
        column: usize,
        scenario: usize,
        market: &Market<'a>,
    ) -> Walk
        requires small_walk { SmallWalk term.coupon scenario market.now.factors.now.lower market.now.factors.now.upper self × ColumnRates market.now.rates.now column × EdgesFit market.now.tiers.now.count market.now.tiers.now.edges }
        requires month_bound { (suc self.month ≤ term.end) × (term.end - suc self.month ≤ months_limit) }
        requires month_bound_2 { lent_survival market.now.tiers.now term.coupon (rolling_rate market.now.rates.now column scenario (suc self.month)) (term.end - suc self.month) ≤ par }
        ensures { result ≡ early_walk term.coupon (lent_survival market.now.tiers.now term.coupon (rolling_rate market.now.rates.now column scenario (suc self.month)) (term.end - suc self.month)) scenario market.now.factors.now.lower market.now.factors.now.upper self }
    {
        let month = self.month + 1;
        let rate = rate_in(market.rates, column, scenario, month);
        let survival = early_survival(term.coupon, rate, term.end - month, market.tiers);
        let growth = COUPON_GROWTH * term.coupon;
        let factors = market.factors_after(self.month, scenario);
        let lower = early_month(self.runs.lower, growth, survival, factors.lower, false);
        let upper = early_month(self.runs.upper, growth, survival, factors.upper, true);
        Walk {
            month,
            runs: Bounds { lower, upper },
        }
    }

    // The last month of a term with a coupon, of which a share rolls over.
    pub(crate) fn rolled<'a>(
        self,
        coupon: u64,
        share: u64,
        scenario: usize,
        market: &Market<'a>,
    ) -> Walk
        requires { SmallWalk coupon scenario market.now.factors.now.lower market.now.factors.now.upper self × (share ≤ share_scale) }
        ensures { result ≡ rolling_walk coupon share scenario market.now.factors.now.lower market.now.factors.now.upper self }
    {
        let growth = COUPON_GROWTH * coupon;
        let factors = market.factors_after(self.month, scenario);
        let lower = rolling_month(self.runs.lower, growth, share, factors.lower, false);
        let upper = rolling_month(self.runs.upper, growth, share, factors.upper, true);
        Walk {
            month: self.month + 1,
            runs: Bounds { lower, upper },
        }
    }

    // The last month of all, in which what remains is paid: the sums after it.
    pub(crate) fn paid_out<'a>(
        self,
        coupon: u64,
        scenario: usize,
        market: &Market<'a>,
    ) -> Bounds<u64>
        requires { SmallWalk coupon scenario market.now.factors.now.lower market.now.factors.now.upper self }
        ensures { result ≡ last_sums coupon scenario market.now.factors.now.lower market.now.factors.now.upper self }
    {
        let growth = COUPON_GROWTH * coupon;
        let factors = market.factors_after(self.month, scenario);
        Bounds {
            lower: last_sum(self.runs.lower, growth, factors.lower, false),
            upper: last_sum(self.runs.upper, growth, factors.upper, true),
        }
    }
}

// The term that a rollover opens after a month: its coupon is the retail rate of its first month.
pub fn next_term(month: u64, cell: RetailCell, scenario: usize, rates: &[u16]) -> Term
    requires { (month < last_month) × (cell.term ≤ months_limit) × (scenario < scenario_count) × ColumnRates rates.now cell.column }
    ensures { (result.coupon ≡ 10 * rolling_rate rates.now cell.column scenario (suc month)) × (result.end ≡ month + cell.term) }
{
    let rate = rate_in(rates, cell.column, scenario, month + 1);
    Term {
        coupon: 10 * rate,
        end: month + cell.term,
    }
}
