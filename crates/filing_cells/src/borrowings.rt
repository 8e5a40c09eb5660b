// What can be wrong with the borrowings among the cells of a filing: whether 18 asks for a LIBOR sheet, and refusals 19, 7 and 9.
ghost use Rattle.std.specs.Prelude.{◌≡◌, ◌+◌, ◌*◌, ◌≤◌, ◌<◌};
ghost use Rattle.lists.specs.Sums.{sum};
ghost use Rattle.form.specs.Borrowings.{coupon_classes, borrowing_terms, borrowings_total_cell};
ghost use Rattle.answers.specs.Answers.{verdict_of};
ghost use Rattle.filing_cells.specs.BorrowingConditions.{class_borrowed, term_borrowed, some_borrowed, coupon_outside, term_outside, borrowings};
ghost use Rattle.filing_cells.specs.BorrowingVerdicts.{coupons_verdict, terms_verdict, borrowings_verdict};
ghost use Rattle.filing_cells.specs.Inner.Borrowed.{BorrowingsWithin, some_from};

use crate::column_sums::cells::cell_value;
use answers::Refusal;
use form::CELLS;
use form::borrowings::{
    BORROWING_TERMS, BORROWINGS, BORROWINGS_TOTAL_CELL, COUPON_CLASSES, borrowing_at, borrowing_of,
    coupon_cell, term_cell, within_class, within_term,
};

// One of the twenty-four balances is not zero.
pub fn some_borrowed(cells: &[u64; CELLS]) -> bool
    ensures { result ≡ some_borrowed cells.now }
{
    (0..BORROWINGS).any(|i| cell_value(cells, borrowing_at(i).balance) != 0)
}

// 19, by ascending WAC cell.
pub fn check_coupons(cells: &[u64; CELLS]) -> Result<(), Refusal>
    ensures { verdict_of result ≡ coupons_verdict cells.now }
{
    for class in 0..COUPON_CLASSES {
        if coupon_outside(cells, class) {
            return Err(Refusal::CouponOutsideClass(coupon_cell(class)));
        }
    }
    Ok(())
}

// A class has a balance, and its coupon lies outside it.
fn coupon_outside(cells: &[u64; CELLS], class: usize) -> bool
    requires { class < coupon_classes }
    ensures { result ≡ coupon_outside cells.now class }
{
    if class_borrowed(cells, class) {
        let coupon = cell_value(cells, coupon_cell(class));
        return !within_class(class, coupon);
    }
    false
}

// One of a class's three balances is not zero.
fn class_borrowed(cells: &[u64; CELLS], class: usize) -> bool
    requires { class < coupon_classes }
    ensures { result ≡ class_borrowed cells.now class }
{
    some_from(cells, borrowing_of(class, 0).balance, 1, BORROWING_TERMS)
}

// 7, by ascending WARM cell.
pub fn check_terms(cells: &[u64; CELLS]) -> Result<(), Refusal>
    ensures { verdict_of result ≡ terms_verdict cells.now }
{
    for term in 0..BORROWING_TERMS {
        if term_outside(cells, term) {
            return Err(Refusal::MonthsOutsideRow(term_cell(term)));
        }
    }
    Ok(())
}

// A term has a balance, and its remaining months lie outside it.
fn term_outside(cells: &[u64; CELLS], term: usize) -> bool
    requires { term < borrowing_terms }
    ensures { result ≡ term_outside cells.now term }
{
    if term_borrowed(cells, term) {
        let months = cell_value(cells, term_cell(term));
        return !within_term(term, months);
    }
    false
}

// One of a term's eight balances is not zero.
fn term_borrowed(cells: &[u64; CELLS], term: usize) -> bool
    requires { term < borrowing_terms }
    ensures { result ≡ term_borrowed cells.now term }
{
    some_from(cells, borrowing_of(0, term).balance, 4, COUPON_CLASSES)
}

// One of the cells first, first + step, .., `count` of them, is not zero.
fn some_from(cells: &[u64; CELLS], first: usize, step: usize, count: usize) -> bool
    requires { first + step * count ≤ borrowings_total_cell }
    ensures { result ≡ some_from cells.now first step count }
{
    for i in 0..count {
        if cell_value(cells, first + step * i) != 0 {
            return true;
        }
    }
    false
}

// 9, at the total.
pub fn check_borrowings_total(cells: &[u64; CELLS]) -> Result<(), Refusal>
    requires { BorrowingsWithin cells.now }
    ensures { verdict_of result ≡ borrowings_verdict cells.now }
{
    if cell_value(cells, BORROWINGS_TOTAL_CELL) == borrowings_sum(cells) {
        Ok(())
    } else {
        Err(Refusal::TotalDiffers(BORROWINGS_TOTAL_CELL))
    }
}

// The sum of the twenty-four balances, in thousands of dollars. Balances within their limit cannot make it wrap.
fn borrowings_sum(cells: &[u64; CELLS]) -> u64
    requires { BorrowingsWithin cells.now }
    ensures { result ≡ sum (borrowings cells.now) }
{
    let mut total = 0;
    for i in 0..BORROWINGS {
        total += cell_value(cells, borrowing_at(i).balance);
    }
    total
}
