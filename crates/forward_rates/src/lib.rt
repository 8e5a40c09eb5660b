// Implied forwards: a pair of growths that encloses the true rate's, from the figures of two accumulated yields.
#![tactic(auto)]

pub mod figures;
pub mod sides;
pub mod terms;

ghost use Rattle.std.specs.Prelude.{◌≤◌, ◌≡◌};
ghost use Rattle.forward_rates.specs.Forwards.{Forward, Enclosing, growth_limit, term_at};
ghost use Rattle.forward_rates.specs.Inner.Figures.{figure_limit};
ghost use Rattle.forward_rates.specs.Inner.Searches.{Figured};

use crate::sides::{Side, side_of};
use crate::terms::{bracket, term_at};
use pricing::Bounds;

// The forward over the term at an index, as a lower and an upper growth (what a rate makes of 120,000 in a month), from the figures of the accumulated yields at its start and its end. Halves the bracket of the term until its ends are one
// apart, or a growth is so close to the true rate's that the figures cannot tell them apart.
pub fn forward(start: u64, end: u64, index: usize) -> Bounds<u64>
    requires { (start ≤ figure_limit) × (end ≤ figure_limit) }
    ensures encloses { (k : Forward) → k.term ≡ term_at index → Figured k start end → Enclosing k result.lower result.upper }
    ensures limited { (result.lower ≤ growth_limit) × (result.upper ≤ growth_limit) }
{
    let term = term_at(index);
    let Bounds {
        mut lower,
        mut upper,
    } = bracket(index);
    // A `while`: no range or iterator says how often a bracket is halved.
    while lower + 1 < upper {
        let middle = (lower + upper) / 2;
        let told = side_of(start, end, term, middle);
        match told {
            Side::Below => lower = middle,
            Side::Above => upper = middle,
            Side::Close => {
                return Bounds {
                    lower: middle - 1,
                    upper: middle + 1,
                };
            }
        }
    }
    Bounds { lower, upper }
}
