// A book: the answer of its opening, and what each call on it answers.
use book_calls::{clear, open, set};
use book_state::Book;
use form::sub_balances::SUB_BALANCES;
use std::io;
use test_lines::input::number_at;
use test_lines::output::{end_line, next_number, text, total_lines};
use test_lines::places::print_held;
use test_lines::verdicts::{print_accepted, print_answer, print_refused};

// Bytes of a call: six numbers of 8.
const CALL: usize = 48;

// An input has the length of a filing, 8 bytes, the filing, and the calls.
pub(crate) fn print_book(rt: &impl Print, input: &[u8]) -> io::Result<()> {
    let n = number_at(input, 0) as usize;
    if 8 <= input.len() {
        print_parts(rt, &input[8..], n)?;
    }
    Ok(())
}

fn print_parts(rt: &impl Print, s: &[u8], n: usize) -> io::Result<()> {
    if n <= s.len() {
        print_opened(rt, &s[..n], &s[n..])?;
    }
    Ok(())
}

fn print_opened(rt: &impl Print, filing: &[u8], calls: &[u8]) -> io::Result<()> {
    match open(filing) {
        Ok(book) => {
            print_accepted(rt)?;
            print_calls(rt, calls, book)
        }
        Err(refusal) => print_refused(rt, refusal),
    }
}

fn print_calls(rt: &impl Print, calls: &[u8], mut book: Book) -> io::Result<()> {
    for call in calls.chunks_exact(CALL) {
        obey(rt, call, &mut book)?;
    }
    Ok(())
}

// Obeys a call: 0 sets a place, 1 clears it, 2 shows it, others show the totals.
fn obey(rt: &impl Print, call: &[u8], book: &mut Book) -> io::Result<()> {
    let place = number_at(call, 8) as usize;
    match number_at(call, 0) {
        0 => {
            let changed = set(
                book,
                place,
                number_at(call, 16),
                number_at(call, 24),
                number_at(call, 32),
                number_at(call, 40),
            );
            print_answer(rt, changed)
        }
        1 => print_answer(rt, clear(book, place)),
        2 => print_place(rt, book, place),
        _ => print_totals(rt, book),
    }
}

fn print_place(rt: &impl Print, book: &Book, place: usize) -> io::Result<()> {
    if place < SUB_BALANCES {
        print_held(rt, book.places[place], place as u64)?;
    }
    Ok(())
}

fn print_totals(rt: &impl Print, book: &Book) -> io::Result<()> {
    text(rt, b"balance")?;
    next_number(rt, book.balance)?;
    end_line(rt)?;
    total_lines(rt, b"total ", &book.totals)
}
