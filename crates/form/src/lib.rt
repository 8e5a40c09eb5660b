// Schedule CMR: its cells, their classes and limits.
#![tactic(auto)]

pub mod borrowings;
pub mod limits;
pub mod positions;
pub mod sub_balances;
pub mod tables;

// The listed cells lie from the first to the last, which are so many numbers.
pub const FIRST_CELL: u64 = 601;

pub const LAST_CELL: u64 = 715;

pub const CELLS: usize = (LAST_CELL - FIRST_CELL + 1) as usize;

// The total of the nine balances.
pub const TOTAL_CELL: usize = 645;

// The cells of columns 1 to 3 stand behind these, in turn: the brokered balances, the balances subject to penalty, the penalties.
pub const BROKERED_CELLS: usize = 649;

pub const PENALTY_BALANCE_CELLS: usize = 652;

pub const PENALTY_MONTHS_CELLS: usize = 655;

// The first of the six balances of columns.
pub const FIRST_COLUMN_CELL: usize = BROKERED_CELLS + 1;

// One of the nine balances: its row (remaining months, 1 to 4), its column (original maturity, 1 to 3), and the cells of its balance, its coupon
// (WAC) and its remaining months (WARM).
#[derive(Clone, Copy)]
pub struct Position {
    pub row: usize,
    pub column: usize,
    pub balance: usize,
    pub coupon: usize,
    pub months: usize,
}
