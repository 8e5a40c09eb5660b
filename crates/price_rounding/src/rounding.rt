// The rounded quotient.
ghost use Rattle.std.specs.Prelude.{◌≡◌, ◌+◌, ◌<◌, ◌≤◌, ◌^◌};
ghost use Rattle.pricing.specs.Rounding as spec;

// n / d as a whole number, rounded up or down.
pub fn quotient(n: u64, d: u64, up: bool) -> u64
    requires { (0 < d) × (n + d ≤ 2 ^ 64) }
    ensures { result ≡ spec.quotient (spec.rounding_of up) n d }
{
    if up { (n + (d - 1)) / d } else { n / d }
}
