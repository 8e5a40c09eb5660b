// Prices of certificate deposits by the monthly run, at either rounding, and exact; with their laws. Nothing runs here.
#![tactic(auto)]

// The opening balance, and the scale of balances, flows, survivals, discount factors and prices: billionths.
pub const PAR: u64 = 1_000_000_000;

// A lower and an upper figure, or two of what they are made by.
#[derive(Clone, Copy)]
pub struct Bounds<T> {
    pub lower: T,
    pub upper: T,
}

// The run after some months, in billionths of the opening balance: what is left, and the discounted flows so far.
#[derive(Clone, Copy)]
pub struct Run {
    pub balance: u64,
    pub price: u64,
}
