// The class of a cell and the limit of a class, from tables that the check tests against the definitions. Their numbers stand in the code: a constant array is
// built anew at each read.
ghost use Rattle.std.specs.Prelude.{◌≡◌, ◌<◌, get_or};
ghost use Rattle.lists.specs.Ranges.{within};
ghost use Rattle.form.specs.Limits.{class_limit};
ghost use Rattle.form.specs.Classes.{cell_class};
ghost use Rattle.form.specs.Inner.Classes.{sixteen_classes};

use crate::limits::{
    BALANCE_LIMIT, BORROWINGS_TOTAL_LIMIT, COLUMN_LIMIT, FILED_COUPON_LIMIT, MONTHS_LIMIT,
    PENALTY_LIMIT, TOTAL_LIMIT, UNUSED_LIMIT,
};
use crate::{FIRST_CELL, LAST_CELL};

// The class of a certificates' coupon.
pub const COUPON_CLASS: usize = 2;

// The class of a cell: 0 where it is not listed.
pub fn cell_class(cell: u64) -> usize
    ensures { result ≡ cell_class cell }
{
    if cell < FIRST_CELL {
        return 0;
    }
    if LAST_CELL < cell {
        return 0;
    }
    let i = cell - FIRST_CELL;
    ((sixteen_classes(i / 16) >> (4 * (i % 16))) % 16) as usize
}

// The classes of sixteen cells, a hexadecimal digit each, the lowest cell's last.
fn sixteen_classes(part: u64) -> u64
    requires { part < 8 }
    ensures { result ≡ sixteen_classes part }
{
    match part {
        0 => 0x1100_0033_3222_7111,
        1 => 0x1100_0000_3332_2271,
        2 => 0x0006_3271_0003_3227,
        3 => 0x0007_7755_5444_4440,
        4 => 0x8898_8800_0000_0000,
        5 => 0x8898_8898_8898_8898,
        6 => 0xaa00_0098_8898_8898,
        _ => 0x0000_0000_0000_0b0a,
    }
}

// The largest value of a class, as filed: 0 of one that no listed cell has.
pub fn class_limit(class: usize) -> u64
    ensures { result ≡ class_limit class }
{
    match class {
        0 => 0,
        1 => BALANCE_LIMIT,
        2 => FILED_COUPON_LIMIT,
        3 => MONTHS_LIMIT,
        4 => COLUMN_LIMIT,
        5 => PENALTY_LIMIT,
        6 => TOTAL_LIMIT,
        7 => UNUSED_LIMIT,
        8 => BALANCE_LIMIT,
        9 => FILED_COUPON_LIMIT,
        10 => MONTHS_LIMIT,
        11 => BORROWINGS_TOTAL_LIMIT,
        _ => 0,
    }
}

// The entry at an index of a table: 0 past its end.
pub fn entry_at(table: &[u64], i: usize) -> u64
    ensures { result ≡ get_or table.now i 0 }
{
    if i < table.len() { table[i] } else { 0 }
}

// A number is one of least to most.
pub fn within(least: u64, most: u64, x: u64) -> bool
    ensures { result ≡ within least most x }
{
    if x < least {
        return false;
    }
    x <= most
}
