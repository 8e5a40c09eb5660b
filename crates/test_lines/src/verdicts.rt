// What the calls have in common: the line of an answer, and the count of what a call leaves as it was.
use crate::output::{end_line, next_number, text};
use answers::Refusal;
use std::io;

// The number and the location of an acceptance: 0 and 0.
pub fn print_accepted(rt: &impl Print) -> io::Result<()> {
    print_numbers(rt, 0, 0)
}

// The number and the location of a refusal.
pub fn print_refused(rt: &impl Print, refusal: Refusal) -> io::Result<()> {
    print_numbers(rt, refusal.number(), refusal.location() as u64)
}

// Those of an answer.
pub fn print_answer(rt: &impl Print, answer: Result<(), Refusal>) -> io::Result<()> {
    match answer {
        Ok(()) => print_accepted(rt),
        Err(refusal) => print_refused(rt, refusal),
    }
}

fn print_numbers(rt: &impl Print, number: u64, location: u64) -> io::Result<()> {
    text(rt, b"answer")?;
    next_number(rt, number)?;
    next_number(rt, location)?;
    end_line(rt)
}

// A line of how many entries a call left, and how many of them are as they were.
pub(crate) fn print_counts(rt: &impl Print, rest: u64, kept: u64) -> io::Result<()> {
    text(rt, b"rest")?;
    next_number(rt, rest)?;
    next_number(rt, kept)?;
    end_line(rt)
}
