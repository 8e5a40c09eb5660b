// The nine positions of Schedule CMR, 0 to 8 by ascending balance cell. The check tests the tables against the definitions.
ghost use Rattle.std.specs.Prelude.{◌≡◌};
ghost use Rattle.form.specs.Cells as specs;
ghost use Rattle.form.specs.Cells.{position_at, within_row};

use crate::Position;
use crate::tables::within;

// The position at an index of the table; all 0 past the ninth.
pub fn position(i: usize) -> Position
    ensures { result ≡ position_at i }
{
    match i {
        0 => position_of(1, 1, 601, 605, 608),
        1 => position_of(1, 2, 602, 606, 609),
        2 => position_of(1, 3, 603, 607, 610),
        3 => position_of(2, 1, 615, 619, 622),
        4 => position_of(2, 2, 616, 620, 623),
        5 => position_of(2, 3, 617, 621, 624),
        6 => position_of(3, 2, 631, 634, 636),
        7 => position_of(3, 3, 632, 635, 637),
        8 => position_of(4, 3, 641, 643, 644),
        _ => position_of(0, 0, 0, 0, 0),
    }
}

// A position: its row, its column, and the cells of balance, coupon and remaining months.
fn position_of(row: usize, column: usize, balance: usize, coupon: usize, months: usize) -> Position
    ensures { result ≡ specs.position row column balance coupon months }
{
    Position {
        row,
        column,
        balance,
        coupon,
        months,
    }
}

// Months lie within a row, 1 to 4.
pub fn within_row(row: usize, months: u64) -> bool
    ensures { result ≡ within_row row months }
{
    match row {
        0 => within(0, 0, months),
        1 => within(1, 3, months),
        2 => within(4, 12, months),
        3 => within(13, 36, months),
        4 => within(37, 120, months),
        _ => within(0, 0, months),
    }
}
