// What is printed of a filing: its values, its sub-balances and its listing.
use crate::figures::{print_borrowings, print_totals};
use crate::lines::{Spaced, print_answer};
use crate::pricing::Valuation;
use crate::records::Filing;
use crate::refusals::check_list;
use std::io;

// How many numbers the values of a filing are, how many places its sub-balances, and how many numbers
// the values of its borrowings.
const NUMBERS: u64 = 568;

const PLACES: u64 = 36;

const BORROWINGS: u64 = 374;

// The most bytes of a listing.
const LISTING: usize = 65536;

// Values a filing, with a list of `length` numbers.
pub fn print_valued(rt: &impl Print, valuation: Valuation, length: u64) -> io::Result<()> {
    let answer = check_list(length, NUMBERS).and_then(|()| valuation.filing.check());
    print_answer(rt, answer)?;
    if answer.is_err() {
        return print_rest(rt, length, 0);
    }
    print_values(rt, valuation)?;
    print_rest(rt, length, NUMBERS)
}

// Splits a filing, with a list of `length` places.
pub fn print_split(rt: &impl Print, filing: Filing, length: u64) -> io::Result<()> {
    let answer = check_list(length, PLACES).and_then(|()| filing.check());
    print_answer(rt, answer)?;
    if answer.is_err() {
        return print_rest(rt, length, 0);
    }
    print_shares(rt, filing)?;
    print_rest(rt, length, PLACES)
}

// Values a filing with a list for its certificates and one for its borrowings, of as many numbers each.
pub fn print_both(
    rt: &impl Print,
    valuation: Valuation,
    numbers: u64,
    borrowings: u64,
) -> io::Result<()> {
    let answer = check_list(numbers, NUMBERS)
        .and_then(|()| check_list(borrowings, BORROWINGS))
        .and_then(|()| valuation.filing.check());
    print_answer(rt, answer)?;
    if answer.is_err() {
        print_rest(rt, numbers, 0)?;
        return print_rest(rt, borrowings, 0);
    }
    print_values(rt, valuation)?;
    print_rest(rt, numbers, NUMBERS)?;
    print_borrowings(rt, valuation)?;
    print_rest(rt, borrowings, BORROWINGS)
}

// How many entries of a list are past the written ones, and how many of these are as they were.
fn print_rest(rt: &impl Print, length: u64, written: u64) -> io::Result<()> {
    let rest = length.saturating_sub(written);
    println!(rt; "rest {rest} {rest}")
}

// The listing.
pub fn print_listing(rt: &impl Print, valuation: Valuation) -> io::Result<()> {
    let filing = valuation.filing;
    if LISTING < filing.bytes.len() {
        return println!(rt; "too long");
    }
    match filing.check() {
        Ok(()) => print_totals(rt, valuation, "", &filing.sub_balances()),
        Err(refusal) => println!(rt; "refused {refusal}"),
    }
}

// The balance and the values of each place whose balance is not zero, and the totals.
fn print_values(rt: &impl Print, valuation: Valuation) -> io::Result<()> {
    let parts = valuation.filing.sub_balances();
    for (place, part) in parts.iter().enumerate() {
        let balance = part.balance;
        if balance != 0 {
            let bounds = valuation.bounds(*part);
            let figures = Spaced(&bounds);
            println!(rt; "value {place} {balance}{figures}")?;
        }
    }
    print_totals(rt, valuation, "total ", &parts)
}

// Each place's balance, coupon, months and penalty, and that its fourteen values are 0, where one of
// the four is not.
fn print_shares(rt: &impl Print, filing: Filing) -> io::Result<()> {
    for (place, part) in filing.sub_balances().iter().enumerate() {
        if part.balance != 0 || part.coupon != 0 || part.months != 0 || part.penalty != 0 {
            println!(rt; "share {place} {part} 14")?;
        }
    }
    Ok(())
}
