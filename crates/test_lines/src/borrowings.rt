// A list of the borrowings' numbers, 7s before the call, after the valuing call.
use crate::output::scenario_line;
use crate::values::{print_rest, print_rows};
use form::borrowings::BORROWINGS;
use form::sub_balances::{PLACE_NUMBERS, PLACE_VALUES, SCENARIOS};
use std::io;

// The totals begin behind the numbers of all borrowings, and are two in each scenario; and the numbers of all.
const TOTALS_START: usize = PLACE_NUMBERS * BORROWINGS;

const NUMBERS: usize = TOTALS_START + PLACE_VALUES;

// On acceptance the 374 numbers; and how many of those past them, or on a refusal of all, are still 7.
pub fn print_left(rt: &impl Print, list: &[u64], is_accepted: bool) -> io::Result<()> {
    if is_accepted {
        print_rows(rt, b"borrowing", list, BORROWINGS)?;
        print_totals(rt, list)?;
        print_rest(rt, list, NUMBERS)
    } else {
        print_rest(rt, list, 0)
    }
}

// The lower and the upper total of each scenario, behind its shift.
fn print_totals(rt: &impl Print, list: &[u64]) -> io::Result<()> {
    if let Some(totals) = list.get(TOTALS_START..) {
        for (scenario, two) in totals.chunks_exact(2).take(SCENARIOS).enumerate() {
            scenario_line(rt, b"borrowings ", scenario as u64, two)?;
        }
    }
    Ok(())
}
