// What is printed of answers and of lists of numbers.
use crate::refusals::Refusal;
use std::{fmt, io};

// Numbers, each behind a space.
#[derive(Clone, Copy)]
pub struct Spaced<'a>(pub &'a [u64]);

impl fmt::Display for Spaced<'_> {
    fn fmt<W: fmt::Write>(&self, f: &mut fmt::Formatter<W>) -> fmt::Result {
        for number in self.0 {
            write!(f, " {number}")?;
        }
        Ok(())
    }
}

// An answer: a refusal's number and its location, both 0 on acceptance.
pub fn print_answer(rt: &impl Print, answer: Result<(), Refusal>) -> io::Result<()> {
    match answer {
        Ok(()) => println!(rt; "answer 0 0"),
        Err(refusal) => println!(rt; "answer {refusal}"),
    }
}
