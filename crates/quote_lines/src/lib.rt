// Price lines on query: what a list of printed lines replies to a month and a scenario.
#![tactic(auto)]

mod line_faults;
mod line_replies;

ghost use Rattle.std.specs.Prelude.{◌≡◌, ◌<◌};
ghost use Rattle.quote_lines.specs.Lines.{line_count, line_in, lines_of};
ghost use Rattle.quote_lines.specs.Promise.{QuotedAs};

use answers::Refusal;
use form::sub_balances::SCENARIOS;
use quote_prices::PriceLine;

// The reply to a query.
#[derive(Clone, Copy, Debug, PartialEq)]
pub enum Reply {
    Listed(f64),
    Between(f64),
    Outside,
}

// The lines of two lists: the months of each line, and seven prices for each. There are as many lines as both lists have.
// (a) The two lists are the C interface's, of `spritapricot_price`.
#[derive(Clone, Copy)]
struct Lines<'a> {
    months: &'a [u16],
    prices: &'a [f64],
}

// The price of a month and a scenario by the lines of two lists: the months of each line, and seven prices for each. There are as many lines as both
// lists have.
pub fn quote(months: &[u16], prices: &[f64], month: u64, scenario: u64) -> Result<Reply, Refusal>
    ensures quoted { QuotedAs (lines_of months.now prices.now) month scenario result }
{
    let lines = Lines { months, prices };
    lines.check()?;
    Ok(lines.reply(month, scenario))
}

impl Lines<'_> {
    // How many lines there are.
    #[tactic(auto, unfolding(crate::specs::Lines::line_count))]
    fn count(&self) -> usize
        ensures { result ≡ line_count self.now.months.now self.now.prices.now }
    {
        self.months.len().min(self.prices.len() / SCENARIOS)
    }

    // A line, by value.
    fn line(&self, i: usize) -> PriceLine
        requires { i < line_count self.now.months.now self.now.prices.now }
        ensures { result ≡ line_in self.now.months.now self.now.prices.now i }
    {
        let first = SCENARIOS * i;
        PriceLine {
            months: self.months[i],
            prices: std::array::from_fn(|k| self.prices[first + k]),
        }
    }
}
