// A list of numbers, 7s before the call, after the valuing call.
use crate::output::{next_number, rest_of_line, scenario_lines, text};
use crate::verdicts::print_counts;
use form::sub_balances::{NUMBERS, PLACE_NUMBERS, SUB_BALANCES};
use std::io;

// On acceptance the 568 numbers; and how many of those past them, or on a refusal of all, are still 7.
pub fn print_left(rt: &impl Print, list: &[u64], is_accepted: bool) -> io::Result<()> {
    if is_accepted {
        print_rows(rt, b"value", list, SUB_BALANCES)?;
        scenario_lines(rt, b"total ", list)?;
        print_rest(rt, list, NUMBERS)
    } else {
        print_rest(rt, list, 0)
    }
}

// How many numbers are past the first `written`, and how many of them are 7.
pub(crate) fn print_rest(rt: &impl Print, list: &[u64], written: usize) -> io::Result<()> {
    if written <= list.len() {
        let rest = &list[written..];
        print_counts(rt, rest.len() as u64, sevens(rest))?;
    }
    Ok(())
}

// How many numbers of a list are 7.
fn sevens(list: &[u64]) -> u64 {
    list.iter().filter(|n| **n == 7).count() as u64
}

// The fifteen numbers of each of the first `count` places, behind a name.
pub(crate) fn print_rows(
    rt: &impl Print,
    name: &[u8],
    list: &[u64],
    count: usize,
) -> io::Result<()> {
    for (place, row) in list.chunks_exact(PLACE_NUMBERS).take(count).enumerate() {
        print_row(rt, name, place as u64, row)?;
    }
    Ok(())
}

// A place's numbers, where one of them is not 0.
fn print_row(rt: &impl Print, name: &[u8], place: u64, row: &[u64]) -> io::Result<()> {
    if any_number(row) {
        text(rt, name)?;
        next_number(rt, place)?;
        rest_of_line(rt, row)?;
    }
    Ok(())
}

// A number of the list is not 0.
fn any_number(list: &[u64]) -> bool {
    list.iter().any(|n| *n != 0)
}
