// What is printed of certificates.
use crate::lines::print_answer;
use crate::sums::{Sums, sums_of};
use std::io;

// The answer, and the cells with their values; none on a refusal.
pub fn print_certificates(rt: &impl Print, s: &[u8]) -> io::Result<()> {
    match sums_of(s) {
        Ok(sums) => {
            print_answer(rt, Ok(()))?;
            print_cells(rt, &sums)
        }
        Err(refusal) => {
            print_answer(rt, Err(refusal))?;
            println!(rt; "cells 0")
        }
    }
}

// How many cells there are, and each.
fn print_cells(rt: &impl Print, sums: &Sums) -> io::Result<()> {
    let count = (601..646)
        .filter(|cell| sums.value(*cell).is_some())
        .count();
    println!(rt; "cells {count}")?;
    for cell in 601..646u64 {
        if let Some(value) = sums.value(cell) {
            println!(rt; "cell {cell} {value}")?;
        }
    }
    Ok(())
}
