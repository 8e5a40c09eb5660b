// What is printed of sub-balances, of a filing or of a book, and of borrowings.
use crate::lines::Spaced;
use crate::pricing::{SHIFTS, Valuation};
use crate::shares::SubBalance;
use std::{fmt, io};

// A sub-balance: its balance, coupon, months and penalty.
impl fmt::Display for SubBalance {
    fn fmt<W: fmt::Write>(&self, f: &mut fmt::Formatter<W>) -> fmt::Result {
        let balance = self.balance;
        let coupon = self.coupon;
        let months = self.months;
        let penalty = self.penalty;
        write!(f, "{balance} {coupon} {months} {penalty}")
    }
}

// The totals of each scenario, behind a name and the shift in hundredths of a percent.
pub fn print_totals(
    rt: &impl Print,
    valuation: Valuation,
    name: &str,
    parts: &[SubBalance; 36],
) -> io::Result<()> {
    for shift in SHIFTS {
        let totals = valuation.totals(parts, shift);
        let figures = Spaced(&totals);
        println!(rt; "{name}{shift}{figures}")?;
    }
    Ok(())
}

// The balance and the values of each borrowing whose balance is not zero, and their totals.
pub fn print_borrowings(rt: &impl Print, valuation: Valuation) -> io::Result<()> {
    let parts = valuation.filing.borrowings();
    for (k, part) in parts.iter().enumerate() {
        let balance = part.balance;
        if balance != 0 {
            let bounds = valuation.borrowed_bounds(&[*part]);
            let figures = Spaced(&bounds);
            println!(rt; "borrowing {k} {balance}{figures}")?;
        }
    }
    let totals = valuation.borrowed_bounds(&parts);
    for (scenario, shift) in SHIFTS.iter().enumerate() {
        let lower = totals[2 * scenario % 14];
        let upper = totals[(2 * scenario + 1) % 14];
        println!(rt; "borrowings {shift} {lower} {upper}")?;
    }
    Ok(())
}
