// On which side of the true rate's growth another growth lies, as far as figures tell.
ghost use Rattle.std.specs.Prelude.{◌≤◌, ◌<◌, ◌≡◌};
ghost use Rattle.form.specs.Limits.{sheet_months};
ghost use Rattle.forward_rates.specs.Forwards.{Forward};
ghost use Rattle.forward_rates.specs.Inner.Figures.{figure_limit};
ghost use Rattle.forward_rates.specs.Inner.Searches.{Figured, Fit, Told, margin};

use crate::figures::{UNIT, power};

// What a comparison tells of a growth.
#[derive(Clone, Copy, Debug, PartialEq, Eq)]
pub enum Side {
    // The growth is at most the true rate's.
    Below,
    // The growth is at least the true rate's.
    Above,
    // One less is at most the true rate's and one more at least.
    Close,
}

// Compares what a growth over the term makes of the start with the end. What all figures lose together is below the effect of one hundredth of a percent.
pub fn side_of(start: u64, end: u64, term: u64, growth: u64) -> Side
    requires { (start ≤ figure_limit) × (end ≤ figure_limit) × (0 < term) × (term ≤ sheet_months) × Fit term growth }
    ensures { (k : Forward) → k.term ≡ term → Figured k start end → Told k growth result }
{
    let grown = power(growth, term) * start;
    let margin = margin_of(term);
    if grown <= end * (UNIT - margin) {
        return Side::Below;
    }
    if end * (UNIT + margin) <= grown {
        return Side::Above;
    }
    Side::Close
}

// What all figures of a comparison lose together: the two accumulated yields, and the power, whose roundings may lose sixteen units each.
fn margin_of(term: u64) -> u64
    requires { term ≤ sheet_months }
    ensures { result ≡ margin term }
{
    32 * term + 240
}
