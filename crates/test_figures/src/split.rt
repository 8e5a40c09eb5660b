// The split on a list of places that hold 7s: its answer, and what it leaves in the list.
use share_list::split_first;
use std::io;
use test_lines::places::{SEVENS, print_left};
use test_lines::verdicts::print_answer;

// Splits a filing into a list of `places` places, 40 at most.
pub(crate) fn print_splitting(rt: &impl Print, filing: &[u8], places: usize) -> io::Result<()> {
    let lent = places.min(40);
    let mut list = [SEVENS; 40];
    let answer = split_first(filing, &mut list, lent);
    print_answer(rt, answer)?;
    print_left(rt, &list, lent, answer.is_ok())
}
