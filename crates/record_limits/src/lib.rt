// Refusal 5: the limits of a cell's value and of a sheet's numbers, in the body of a record.
#![tactic(auto)]

pub mod tier_faults;

ghost use Rattle.std.specs.Prelude.{◌≡◌};
ghost use Rattle.record_limits.specs.Bodies.{value_limit, unfit_for, unfit_amendment, number_over, over_limit};

use form::limits::COUPON_LIMIT;
use form::tables::{cell_class, class_limit};
use record_fields::{
    amendment_number, amendment_state, amendment_value, holds_numbers, number_of, record_cell,
    record_kind, record_value,
};
use record_kinds::{AMENDMENT_KIND, FINE_COUPON_KIND, gives_cell, sheet_kind};

// 5: a value is over its limit.
pub fn over_limit(s: &[u8], at: usize) -> bool
    ensures { result ≡ over_limit s.now at }
{
    let kind = record_kind(s, at);
    if gives_cell(kind) {
        return value_limit(s, at) < record_value(s, at);
    }
    if kind == AMENDMENT_KIND {
        return unfit_amendment(s, at);
    }
    let sheet = sheet_kind(kind);
    number_over(s, at, sheet.limit, sheet.numbers as usize)
}

// The largest value of a record's cell: of a coupon in thousandths, or its class's.
fn value_limit(s: &[u8], at: usize) -> u64
    ensures { result ≡ value_limit s.now at }
{
    if record_kind(s, at) == FINE_COUPON_KIND {
        return COUPON_LIMIT;
    }
    class_limit(cell_class(record_cell(s, at)))
}

// An amendment that does not fit its cell.
fn unfit_amendment(s: &[u8], at: usize) -> bool
    ensures { result ≡ unfit_amendment s.now at }
{
    let limit = class_limit(cell_class(record_cell(s, at)));
    unfit_for(
        limit,
        amendment_number(s, at) as u64,
        amendment_state(s, at) as u64,
        amendment_value(s, at),
    )
}

// An amendment of a cell with a limit whose number is 0, whose value is over the limit, which withdraws the cell and holds a value, or whose state is another.
pub fn unfit_for(limit: u64, number: u64, state: u64, value: u64) -> bool
    ensures { result ≡ unfit_for limit number state value }
{
    if number == 0 {
        return true;
    }
    if state == 0 {
        return limit < value;
    }
    if state == 1 {
        return value != 0;
    }
    true
}

// One of a sheet's first n numbers is over the limit.
fn number_over(s: &[u8], at: usize, limit: u16, n: usize) -> bool
    ensures { result ≡ number_over s.now at limit n }
{
    let within = holds_numbers(s, at, n);
    for i in 0..n {
        if limit < number_of(s, at, i + 1, within) {
            return true;
        }
    }
    false
}
