// The twenty-four borrowings of Schedule CMR, 0 to 23 by ascending balance cell: eight coupon classes of three terms each. The check tests the tables against
// the definitions.
ghost use Rattle.std.specs.Prelude.{◌≡◌, ◌<◌};
ghost use Rattle.form.specs.Borrowings.{borrowing_count, coupon_classes, borrowing_terms, coupon_cell, term_cell, borrowing, borrowing_at, within_class, within_term};

use crate::limits::FILED_COUPON_LIMIT;
use crate::sub_balances::{PLACE_NUMBERS, PLACE_VALUES};
use crate::tables::within;

// Eight coupon classes of three terms each.
pub const COUPON_CLASSES: usize = 8;

pub const BORROWING_TERMS: usize = 3;

pub const BORROWINGS: usize = 24;

// Their totals begin behind the numbers of all, and are two in each scenario; and the numbers in a list.
pub const BORROWING_TOTALS_START: usize = PLACE_NUMBERS * BORROWINGS;

pub const BORROWING_NUMBERS: usize = BORROWING_TOTALS_START + PLACE_VALUES;

// The total of the twenty-four balances.
pub const BORROWINGS_TOTAL_CELL: usize = 715;

// One of the twenty-four borrowings: its coupon class (0 to 7), its term (remaining months, 0 to 2), and the cells of its balance, its coupon (WAC)
// and its remaining months (WARM).
#[derive(Clone, Copy)]
pub struct Borrowing {
    pub class: usize,
    pub term: usize,
    pub balance: usize,
    pub coupon: usize,
    pub months: usize,
}

// The borrowing of a class and a term.
pub fn borrowing_of(class: usize, term: usize) -> Borrowing
    requires { (class < coupon_classes) × (term < borrowing_terms) }
    ensures { result ≡ borrowing class term }
{
    Borrowing {
        class,
        term,
        balance: 675 + 4 * class + term,
        coupon: coupon_cell(class),
        months: term_cell(term),
    }
}

// The cell of a class's coupon (WAC).
pub fn coupon_cell(class: usize) -> usize
    requires { class < coupon_classes }
    ensures { result ≡ coupon_cell class }
{
    678 + 4 * class
}

// The cell of a term's remaining months (WARM).
pub fn term_cell(term: usize) -> usize
    requires { term < borrowing_terms }
    ensures { result ≡ term_cell term }
{
    711 + term
}

// The borrowing at an index.
pub fn borrowing_at(i: usize) -> Borrowing
    requires { i < borrowing_count }
    ensures { result ≡ borrowing_at i }
{
    borrowing_of(i / BORROWING_TERMS, i % BORROWING_TERMS)
}

// A coupon, in hundredths of a percent a year, lies within a class, 0 to 7.
pub fn within_class(class: usize, coupon: u64) -> bool
    ensures { result ≡ within_class class coupon }
{
    match class {
        0 => within(0, 499, coupon),
        1 => within(500, 599, coupon),
        2 => within(600, 699, coupon),
        3 => within(700, 799, coupon),
        4 => within(800, 899, coupon),
        5 => within(900, 999, coupon),
        6 => within(1_000, 1_099, coupon),
        7 => within(1_100, FILED_COUPON_LIMIT, coupon),
        _ => within(0, 0, coupon),
    }
}

// Months lie within a term, 0 to 2.
pub fn within_term(term: usize, months: u64) -> bool
    ensures { result ≡ within_term term months }
{
    match term {
        0 => within(1, 3, months),
        1 => within(4, 36, months),
        2 => within(37, 120, months),
        _ => within(0, 0, months),
    }
}
