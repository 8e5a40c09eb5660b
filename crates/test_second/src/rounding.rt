// Rounded quotients of whole numbers of 64 bits, with no failing case.

// How a quotient that is no whole number is rounded.
#[derive(Clone, Copy, Debug, PartialEq, Eq)]
pub enum Rounding {
    Down,
    Up,
}

impl Rounding {
    // The lower figure is rounded down, the upper one up.
    pub const BOTH: [Rounding; 2] = [Rounding::Down, Rounding::Up];

    // a × b / d. What does not fit is the largest number, and a quotient by 0 is 0.
    pub fn scaled(self, a: u64, b: u64, d: u64) -> u64 {
        let more = match self {
            Rounding::Down => 0,
            Rounding::Up => d.saturating_sub(1),
        };
        let raised = a.saturating_mul(b).saturating_add(more);
        raised.checked_div(d).unwrap_or(0)
    }
}
