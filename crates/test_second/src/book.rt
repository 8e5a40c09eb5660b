// What is printed of a book. The input has the length of a filing, 8 bytes, the filing, and the calls.
use crate::book_calls::{Action, Book, CALL, Call};
use crate::bytes::number;
use crate::figures::print_totals;
use crate::lines::{Spaced, print_answer};
use crate::pricing::Valuation;
use crate::records::Filing;
use std::io;

// Opens the book of an input and keeps it; nothing for an input that is cut short.
pub fn print_book(rt: &impl Print, s: &[u8], survivals: &[u64]) -> io::Result<()> {
    let end = number(s, 0, 8).saturating_add(8) as usize;
    if let (Some(bytes), Some(calls)) = (s.get(8..end), s.get(end..)) {
        let filing = Filing { bytes };
        print_opened(rt, Valuation { filing, survivals }, calls)?;
    }
    Ok(())
}

// The answer of the opening under a filing, and what each call answers.
fn print_opened(rt: &impl Print, valuation: Valuation, calls: &[u8]) -> io::Result<()> {
    let answer = valuation.filing.check();
    print_answer(rt, answer)?;
    if answer.is_ok() {
        for (k, bytes) in calls.chunks_exact(CALL).enumerate() {
            let end = k.saturating_add(1).saturating_mul(CALL);
            let calls = calls.get(..end).unwrap_or(calls);
            print_call(rt, valuation, Book { calls }, Call::read(bytes))?;
        }
    }
    Ok(())
}

// What the last call on a book answers: whether a change is refused, a place, or the totals.
fn print_call(rt: &impl Print, valuation: Valuation, book: Book, call: Call) -> io::Result<()> {
    match call.action {
        Action::Set | Action::Clear => print_answer(rt, call.check()),
        Action::Show => {
            let place = call.place;
            let part = book.held(place);
            let bounds = valuation.bounds(part);
            let figures = Spaced(&bounds);
            println!(rt; "place {place} {part}{figures}")
        }
        Action::Totals => {
            let parts = book.sub_balances();
            let balance = parts
                .iter()
                .fold(0, |sum: u64, part| { sum.saturating_add(part.balance) });
            println!(rt; "balance {balance}")?;
            print_totals(rt, valuation, "total ", &parts)
        }
    }
}
