// Figures of powers: (growth / 120,000)^n in units of 1 / 2^27, rounded down.
ghost use Rattle.std.specs.Prelude.{ℕ, ◌+◌, ◌*◌, ◌/◌, ◌≤◌, ◌<◌, ◌≡◌};
ghost use Rattle.form.specs.Limits.{sheet_months};
ghost use Rattle.form.specs.Shift.{shifted_limit};
ghost use Rattle.pricing.specs.Scales.{rate_scale};
ghost use Rattle.forward_rates.specs.Inner.Figures.{unit, span, figure_limit, Moderate, Figure, power_loss};
ghost use Rattle.forward_rates.specs.Inner.Searches.{yield_loss};

// The figure of 1, 2^27.
pub const UNIT: u64 = 134_217_728;

// The scale of a yield as a month's rate (01:58).
pub const RATE_SCALE: u64 = 120_000;

// The figure of an accumulated yield: of a shifted yield z, hundredths of a percent a year, the growth 120,000 + z in each of the months.
pub fn accumulated(z: u64, months: u64) -> u64
    requires { (z ≤ shifted_limit) × (months ≤ sheet_months) }
    ensures { Figure yield_loss (rate_scale + z) months result × (result ≤ figure_limit) }
{
    if months == 0 {
        return UNIT;
    }
    power(RATE_SCALE + z, months)
}

// The figure of a power, from that of half as many months.
pub(crate) fn power(growth: u64, n: u64) -> u64
    requires { (0 < n) × Moderate growth n }
    ensures { Figure (power_loss growth n) growth n result }
{
    if n < 2 {
        return first(growth);
    }
    doubled(growth, power(growth, n / 2), n)
}

// The figure of the power of n months from that of half as many: its square, and once more the growth where n is odd.
fn doubled(growth: u64, half: u64, n: u64) -> u64
    requires { (1 < n) × Moderate growth n × Figure (power_loss growth (n / 2)) growth (n / 2) half }
    ensures { Figure (power_loss growth n) growth n result }
{
    let even = product(half, half);
    if n % 2 == 0 {
        return even;
    }
    product(even, first(growth))
}

// The figure of a growth.
fn first(growth: u64) -> u64
    requires { growth ≤ span * rate_scale }
    ensures { result ≡ growth * unit / rate_scale }
{
    growth * UNIT / RATE_SCALE
}

// The figure of the product of two powers.
fn product(p: u64, q: u64) -> u64
    requires { (p ≤ figure_limit) × (q ≤ figure_limit) }
    ensures { result ≡ p * q / unit }
{
    p * q / UNIT
}
