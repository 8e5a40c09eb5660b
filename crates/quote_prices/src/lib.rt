// Printed price lines: what is faulty in a line's prices, and the price between two lines.
#![tactic(auto)]

ghost use Rattle.std.specs.Prelude.{◌≡◌, ◌<◌};
ghost use Rattle.form.specs.Shift.{scenario_count};
ghost use Rattle.quote_prices.specs.PriceLines.{faulty_price, faulty_prices};
ghost use Rattle.quote_prices.specs.Interpolation.{price_between};

use form::sub_balances::SCENARIOS;

// A printed price line: months, and a price for each scenario.
#[derive(Clone, Copy, Debug, PartialEq)]
pub struct PriceLine {
    pub months: u16,
    pub prices: [f64; SCENARIOS],
}

impl PriceLine {
    // The price between this line and one after it in a month between theirs: p1 + (p2 - p1) × w, rounded four times in this order: difference,
    // weight, product, sum.
    #[tactic(auto, unfolding(crate::specs::Interpolation::price_between, crate::specs::Interpolation::along, crate::specs::Interpolation::weight))]
    pub fn price_between(&self, after: &PriceLine, month: u16, scenario: usize) -> f64
        requires months_lt_month { (self.now.months < month) × (month < after.now.months) }
        requires scenario_lt_scenario_count { scenario < scenario_count }
        ensures { result ≡ price_between self.now after.now month scenario }
    {
        let first = self.prices[scenario];
        let second = after.prices[scenario];
        let difference = second - first;
        let weight = f64::from(month - self.months) / f64::from(after.months - self.months);
        let product = difference * weight;
        first + product
    }

    // One of the line's prices is faulty.
    pub fn has_faulty_price(&self) -> bool
        ensures { result ≡ faulty_prices self.now }
    {
        self.prices.iter().any(|price| is_faulty(*price))
    }
}

// A price that is not both above 0 and at most 1,000. What is not a number passes neither test.
#[tactic(auto, using(crate::proofs::PriceLaws::zero_is, crate::proofs::PriceLaws::limit_is), unfolding(crate::specs::PriceLines::faulty_price))]
fn is_faulty(price: f64) -> bool
    ensures { result ≡ faulty_price price }
{
    !(0.0 < price && price <= 1000.0)
}
