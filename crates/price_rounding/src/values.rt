// The value of a balance at a price.
ghost use Rattle.std.specs.Prelude.{◌≡◌, ◌*◌, ◌≤◌};
ghost use Rattle.form.specs.Limits.{balance_limit};
ghost use Rattle.pricing.specs.Scales.{value_scale, amount_limit};
ghost use Rattle.pricing.specs.Rounding as spec;
ghost use Rattle.pricing.specs.Rounding.{rounding_of};

use crate::rounding::quotient;

// The scale of values in dollars (01:58).
const VALUE_SCALE: u64 = 1_000_000;

// The value in dollars of a balance in thousands of dollars, at a price in billionths.
pub fn value_of(balance: u64, price: u64, up: bool) -> u64
    requires { (balance ≤ balance_limit) × (price ≤ amount_limit) }
    ensures { result ≡ spec.quotient (rounding_of up) (balance * price) value_scale }
{
    quotient(balance * price, VALUE_SCALE, up)
}
