// The retail intangible (02:CR 9; 003, Equations 6.A.8 to 6.A.11): what rolls over at maturity and goes on rolling over, exact and at either rounding, with
// its laws. Nothing runs here.
#![tactic(auto)]

// B_0 of the intangible, and the unit of the 126 numbers: millionths of the opening balance.
pub const FIRST_BALANCE: u64 = 1_000_000;

// The last month, in which what remains is paid.
pub const LAST_MONTH: u64 = 360;

// The run after some months at a rounding, in millionths of the opening balance: what the next month opens with, and the discounted flows after the filed term
// so far.
#[derive(Clone, Copy, Debug, PartialEq, Eq)]
pub struct Rolled {
    pub balance: u64,
    pub sum: u64,
}
