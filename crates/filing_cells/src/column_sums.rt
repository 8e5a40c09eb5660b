// The cells of a filing, and the sums of their columns.
pub mod cells;
pub mod sums;

// The sums of columns 1 to 3, and of the rows above each of the nine positions in its column, in thousands of dollars.
#[derive(Clone, Copy)]
pub struct ColumnSums {
    pub totals: [u64; 3],
    pub above: [u64; 9],
}

// The sums of cells that are all 0.
pub const NO_SUMS: ColumnSums = ColumnSums {
    totals: [0; 3],
    above: [0; 9],
};
