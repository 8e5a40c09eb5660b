// The valuing call on lists of 7s: its answer, and what it leaves in the lists.
use std::io;
use test_lines::verdicts::print_answer;
use valuation::value;

// Values a filing with a list of `numbers` numbers, 600 at most; what it leaves in that of the borrowings is not printed.
pub(crate) fn print_valuing(rt: &impl Print, filing: &[u8], numbers: usize) -> io::Result<()> {
    let mut room = [7u64; 600];
    let mut borrowings = [7u64; 374];
    let list = &mut room[..numbers.min(600)];
    let answer = value(filing, list, &mut borrowings);
    print_answer(rt, answer)?;
    test_lines::values::print_left(rt, list, answer.is_ok())
}

// Values a filing with a list of `numbers` numbers, 600 at most, and one of `others` numbers, 400 at most.
pub(crate) fn print_both(
    rt: &impl Print,
    filing: &[u8],
    numbers: usize,
    others: usize,
) -> io::Result<()> {
    let mut room = [7u64; 600];
    let mut borrowed_room = [7u64; 400];
    let list = &mut room[..numbers.min(600)];
    let borrowings = &mut borrowed_room[..others.min(400)];
    let answer = value(filing, list, borrowings);
    print_answer(rt, answer)?;
    test_lines::values::print_left(rt, list, answer.is_ok())?;
    test_lines::borrowings::print_left(rt, borrowings, answer.is_ok())
}
