// The cells that certificates make. The input has numbers of 8 bytes: year, month and day of the
// valuation date; then, for each certificate, those of its issue and of its maturity, its balance and
// its coupon.
ghost use Rattle.std.specs.Prelude.{◌<◌};

use crate::bytes::number;
use crate::cells::{MOST_BALANCE, MOST_COUPON, MOST_MONTHS, POSITIONS, Position, TOTAL};
use crate::dates::Day;
use crate::refusals::{Fault, Refusal};
use crate::rounding::Rounding;

// The bytes of a date, and of a certificate.
const DATE: usize = 24;

const CERTIFICATE: usize = 64;

// The sums of a position: its balance, and its coupons and remaining months weighted by balances.
#[derive(Clone, Copy, Debug)]
struct Sum {
    balance: u64,
    coupon: u64,
    months: u64,
}

// The sums of the nine positions, and the balance of all.
#[derive(Clone, Copy, Debug)]
pub struct Sums {
    positions: [Sum; 9],
    all: u64,
}

// A certificate that is outstanding: its balance, coupon and remaining months, and the index of its
// position.
#[derive(Clone, Copy, Debug)]
struct Certificate {
    balance: u64,
    coupon: u64,
    months: u64,
    position: usize,
}

// The sums of all certificates, or the refusal of the first that is refused.
pub fn sums_of(s: &[u8]) -> Result<Sums, Refusal> {
    let count = s.len().saturating_sub(DATE) / CERTIFICATE;
    if count == 0 || 1000 < count {
        return Err(Fault::OverLimit.at(0));
    }
    let mut sums = Sums {
        positions: [Sum {
            balance: 0,
            coupon: 0,
            months: 0,
        }; 9],
        all: 0,
    };
    for k in 0..count {
        let at = k.saturating_mul(CERTIFICATE).saturating_add(DATE);
        let added = read_certificate(s, at).and_then(|certificate| sums.with(certificate));
        match added {
            Ok(with_it) => sums = with_it,
            Err(fault) => return Err(fault.at(k as u64)),
        }
    }
    Ok(sums)
}

// The certificate at a position of the input, or its fault: 5, 13 for dates that are no days, 14 where
// it is not issued by the valuation date or does not mature after it, 15 where too many months remain.
fn read_certificate(s: &[u8], at: usize) -> Result<Certificate, Fault> {
    let balance = number(s, at.saturating_add(2 * DATE), 8);
    let coupon = number(s, at.saturating_add(2 * DATE + 8), 8);
    if MOST_BALANCE < balance || MOST_COUPON < coupon {
        return Err(Fault::OverLimit);
    }
    let today = Day::read(s, 0).ok_or(Fault::NoSuchDay)?;
    let issue = Day::read(s, at).ok_or(Fault::NoSuchDay)?;
    let maturity = Day::read(s, at.saturating_add(DATE)).ok_or(Fault::NoSuchDay)?;
    if today < issue || maturity <= today {
        return Err(Fault::NotOutstanding);
    }
    let months = today.months_to(maturity);
    if MOST_MONTHS < months {
        return Err(Fault::TooManyMonths);
    }
    Ok(Certificate {
        balance,
        coupon,
        months,
        position: position(issue.months_to(maturity), months),
    })
}

// Where a certificate belongs among the nine positions: by its remaining months a row, by its original
// months a column. Row 3 lacks column 1, and row 4 has column 3 alone.
fn position(original: u64, remaining: u64) -> usize
    ensures { result < 9 }
{
    let row = match remaining {
        0..=3 => 0,
        4..=12 => 3,
        13..=36 => 5,
        _ => 6,
    };
    let column = match original {
        0..=12 => 0,
        13..=36 => 1,
        _ => 2,
    };
    row + column
}

impl Sums {
    // The sums with a certificate more; fault 5 where the balance of its position gets too large.
    fn with(self, certificate: Certificate) -> Result<Sums, Fault> {
        let mut sums = self;
        let balance = certificate.balance;
        let at = certificate.position % 9;
        let sum = self.positions[at];
        let raised = sum.balance.saturating_add(balance);
        if MOST_BALANCE < raised {
            return Err(Fault::OverLimit);
        }
        let coupon = balance.saturating_mul(certificate.coupon);
        let months = balance.saturating_mul(certificate.months);
        sums.positions[at] = Sum {
            balance: raised,
            coupon: sum.coupon.saturating_add(coupon),
            months: sum.months.saturating_add(months),
        };
        sums.all = self.all.saturating_add(balance);
        Ok(sums)
    }

    // The value of a cell that is handed back.
    pub fn value(&self, cell: u64) -> Option<u64> {
        if cell == TOTAL {
            return Some(self.all);
        }
        POSITIONS
            .iter()
            .zip(self.positions.iter())
            .find_map(|(position, sum)| sum.value(*position, cell))
    }
}

impl Sum {
    // What the sums make of a cell of the position: a balance, or a mean weighted by it; nothing where
    // there is no balance, or the cell is of another position.
    fn value(&self, position: Position, cell: u64) -> Option<u64> {
        if self.balance == 0 {
            None
        } else if cell == position.balance {
            Some(self.balance)
        } else if cell == position.wac {
            Some(self.mean(self.coupon))
        } else if cell == position.warm {
            Some(self.mean(self.months))
        } else {
            None
        }
    }

    // The mean of what is weighted by the balance, halves up.
    fn mean(&self, weighted: u64) -> u64 {
        let doubled = weighted.saturating_mul(2).saturating_add(self.balance);
        Rounding::Down.scaled(doubled, 1, self.balance.saturating_mul(2))
    }
}
