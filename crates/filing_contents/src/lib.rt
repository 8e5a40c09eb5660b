// What an accepted filing says is held in two arrays that a caller lends: the values of cells 601 to 715, and the numbers of all sheets, those of each where
// the table of sheets says (`record_kinds`): the CD yields of months 1 to 120, the retail rates of months 1 to 120 column by column, the LIBOR yields of
// months 1 to 120. Cells are in their own units, the certificates' coupons among them in thousandths of a percent a year, the borrowings' coupons, yields and
// rates in hundredths. Its tiers of annual withdrawal go by value.
#![tactic(auto)]

pub mod cell_amounts;
pub mod sheet_numbers;
pub mod sheet_rows;

use form::limits::TIER_LIMIT;

// The tiers that a filing carries, lowest edge first: edges in hundredths, annual withdrawals in thousandths. The entries past the count are 0, and a
// filing without tiers has count 0.
#[derive(Clone, Copy)]
pub struct FiledTiers {
    pub count: usize,
    pub edges: [u16; TIER_LIMIT],
    pub withdrawals: [u16; TIER_LIMIT],
}

// The tiers of a filing without tiers.
pub const NO_TIERS: FiledTiers = FiledTiers {
    count: 0,
    edges: [0; TIER_LIMIT],
    withdrawals: [0; TIER_LIMIT],
};
