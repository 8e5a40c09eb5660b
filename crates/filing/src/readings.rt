// What a reading of an accepted filing holds beside what it writes.
use filing_cells::column_sums::ColumnSums;
use filing_contents::FiledTiers;

// The tiers of a filing, and the sums of its columns.
#[derive(Clone, Copy)]
pub struct Reading {
    pub tiers: FiledTiers,
    pub sums: ColumnSums,
}
