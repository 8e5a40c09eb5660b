// The terms of forwards, and between which growths a forward lies.
ghost use Rattle.std.specs.Prelude.{◌≡◌};
ghost use Rattle.forward_rates.specs.Forwards.{term_at};
ghost use Rattle.forward_rates.specs.Inner.Searches.{Bracket};

use pricing::Bounds;

// The term at an index, months.
pub fn term_at(index: usize) -> u64
    ensures { result ≡ term_at index }
{
    match index {
        0 => 6,
        1 => 24,
        _ => 48,
    }
}

// The growths whose power over the term is a sixteenth and sixteen, as whole numbers within these.
pub fn bracket(index: usize) -> Bounds<u64>
    ensures { Bracket (term_at index) result.lower result.upper }
{
    match index {
        0 => Bounds {
            lower: 75_596,
            upper: 190_488,
        },
        1 => Bounds {
            lower: 106_908,
            upper: 134_695,
        },
        _ => Bounds {
            lower: 113_265,
            upper: 127_135,
        },
    }
}
