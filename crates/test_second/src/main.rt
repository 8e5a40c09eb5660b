// A second valuation, written on its own from the papers, to compare the library with: it reads the
// entries that the test program reads, and prints the same bytes. It shares nothing with the library's
// crates.
#![tactic(auto)]

// Rounded quotients, numbers in bytes, and the cells of the form.
mod bytes;
mod cells;
mod rounding;
// What a filing says, and why it is refused.
mod borrowings;
mod records;
mod refusals;
mod tiers;
// Sub-balances and their values; a book of places; the cells that certificates make.
mod book_calls;
mod dates;
mod pricing;
mod shares;
mod sums;
mod survival;
mod withdrawals;
// What is printed of them, call by call.
mod book;
mod calls;
mod certificates;
mod entries;
mod figures;
mod filings;
mod lines;
mod searches;

use std::io;

// Prints what each entry's call answers.
fn main(rt: HostRuntime) -> io::Result<()> {
    let mut input = rt.stdin();
    let survivals = survival::survivals();
    for i in 0..u64::MAX {
        if !entries::print_entry(&rt, &mut input, &survivals, i)? {
            break;
        }
    }
    Ok(())
}
