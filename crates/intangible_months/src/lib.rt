// The months of the intangible (02:CR 9): the retail rate of one, what survives it, and where it takes the run at either rounding.
#![tactic(auto)]

pub mod months;
pub mod rates;
pub mod survivals;

// A retail cell as its rollovers see it: coupon in thousandths of a percent a year, remaining months, column (1 to 3), the months of a term that a rollover
// opens, and the share that rolls over, in thousandths.
#[derive(Clone, Copy, Debug, PartialEq, Eq)]
pub struct RetailCell {
    pub coupon: u64,
    pub months: u64,
    pub column: usize,
    pub term: u64,
    pub share: u64,
}

// A term: its coupon in thousandths of a percent a year, and its last month.
#[derive(Clone, Copy, Debug, PartialEq, Eq)]
pub struct Term {
    pub coupon: u64,
    pub end: u64,
}
