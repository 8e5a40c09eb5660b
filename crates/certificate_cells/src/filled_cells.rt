// The cells of Schedule CMR that sums of positions fill: balance, WAC and WARM of each, and the total. Nothing runs here.

// The most cells that there can be: three of each of the nine positions, and the total.
pub const MOST_CELLS: usize = 28;

// How many cells there are, and these with their values, by ascending number, at the front of the array.
#[derive(Clone, Copy, Debug, PartialEq, Eq)]
pub struct Cells {
    pub count: usize,
    pub cells: [CellValue; MOST_CELLS],
}

// A cell of Schedule CMR with its value.
#[derive(Clone, Copy, Debug, Default, PartialEq, Eq)]
pub struct CellValue {
    pub cell: usize,
    pub value: u64,
}

// The sums of the nine positions: balances, and coupons and remaining months weighted by them.
#[derive(Clone, Copy, Debug, Default, PartialEq, Eq)]
pub struct Totals {
    pub balance: [u64; 9],
    pub coupon: [u64; 9],
    pub months: [u64; 9],
}
