// Places: a list of 40 that hold 7s before the call, after the split, and a place of a book.
use crate::output::{end_line, next_number, rest_of_line, text};
use crate::verdicts::print_counts;
use form::sub_balances::{PLACE_VALUES, SUB_BALANCES, SubBalance};
use std::io;

pub const SEVENS: SubBalance = SubBalance {
    balance: 7,
    coupon: 7,
    remaining_months: 7,
    penalty: 7,
    values: [7; PLACE_VALUES],
};

// On acceptance the 36 places; and how many of those that were lent past them, or on a refusal of all that were lent, still hold 7s.
pub fn print_left(
    rt: &impl Print,
    list: &[SubBalance; 40],
    lent: usize,
    is_accepted: bool,
) -> io::Result<()> {
    if is_accepted {
        print_places(rt, list)?;
        print_rest(rt, list, SUB_BALANCES, lent)
    } else {
        print_rest(rt, list, 0, lent)
    }
}

// How many of the lent places are past the first `written`, and how many of them still hold 7s.
fn print_rest(
    rt: &impl Print,
    list: &[SubBalance; 40],
    written: usize,
    lent: usize,
) -> io::Result<()> {
    let end = lent.min(list.len());
    let rest = &list[written.min(end)..end];
    let kept = rest.iter().filter(|place| holds_sevens(**place)).count();
    print_counts(rt, rest.len() as u64, kept as u64)
}

fn holds_sevens(place: SubBalance) -> bool {
    place.balance == 7
        && place.coupon == 7
        && place.remaining_months == 7
        && place.penalty == 7
        && count_of(place.values, 7) == PLACE_VALUES
}

// How many of the values are n.
fn count_of(values: [u64; PLACE_VALUES], n: u64) -> usize {
    values.iter().filter(|value| **value == n).count()
}

fn print_places(rt: &impl Print, list: &[SubBalance; 40]) -> io::Result<()> {
    for (i, place) in list.iter().take(SUB_BALANCES).enumerate() {
        print_share(rt, i as u64, *place)?;
    }
    Ok(())
}

// A place's balance, coupon, months and penalty, and how many of its values are 0, where one of the four is not.
fn print_share(rt: &impl Print, i: u64, place: SubBalance) -> io::Result<()> {
    if place.balance | place.coupon | place.remaining_months | place.penalty != 0 {
        print_numbers(rt, b"share", i, place)?;
        next_number(rt, count_of(place.values, 0) as u64)?;
        end_line(rt)?;
    }
    Ok(())
}

// A place of a book: its balance, coupon, months, penalty and values.
pub fn print_held(rt: &impl Print, place: SubBalance, i: u64) -> io::Result<()> {
    print_numbers(rt, b"place", i, place)?;
    rest_of_line(rt, &place.values)
}

// A word, a place's number, and its balance, coupon, months and penalty.
fn print_numbers(rt: &impl Print, word: &[u8], i: u64, place: SubBalance) -> io::Result<()> {
    text(rt, word)?;
    next_number(rt, i)?;
    next_number(rt, place.balance)?;
    next_number(rt, place.coupon)?;
    next_number(rt, place.remaining_months)?;
    next_number(rt, place.penalty)
}
