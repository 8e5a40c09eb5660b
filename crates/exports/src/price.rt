// The call on price lines.
ghost use Rattle.std.specs.Prelude.{◌≡◌};
ghost use Rattle.quote_lines.specs.Replies.{reply_number, reply_price};
ghost use Rattle.exports.specs.Priced.{PricedForC};

use crate::plain_numbers::refused;
use quote_lines::{Reply, quote};

// What price lines reply to a month and a scenario, as `quote_lines::quote` does: answers 0 for a listed price and 1 for a price between, with it in `price`, 2
// for outside, and 21 for a faulty line, with its index in `location`.
#[unsafe(no_mangle)]
pub extern "C" fn spritapricot_price(
    months: &[u16],
    prices: &[f64],
    month: u64,
    scenario: u64,
    price: &mut f64,
    location: &mut u64,
) -> u64
    ensures quoted { PricedForC months.now prices.now month scenario price.old result location.new price.new }
{
    match quote(months, prices, month, scenario) {
        Ok(reply) => {
            *location = 0;
            reply_numbers(reply, price)
        }
        Err(refusal) => refused(refusal, location),
    }
}

// The number of a reply, with its price in a lent number.
fn reply_numbers(reply: Reply, to: &mut f64) -> u64
    ensures { (result ≡ reply_number reply) × (to.new ≡ reply_price reply to.old) }
{
    match reply {
        Reply::Listed(price) => {
            *to = price;
            0
        }
        Reply::Between(price) => {
            *to = price;
            1
        }
        Reply::Outside => 2,
    }
}
