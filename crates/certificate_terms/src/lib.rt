// One certificate: its numbers in the list, its position in Schedule CMR by its terms in months, and its own faults.
#![tactic(auto)]

mod faults;

ghost use Rattle.std.specs.Prelude.{◌≡◌, ◌≤◌, ◌<◌, ◌+◌, ◌*◌, length};
ghost use Rattle.form.specs.Limits.{months_limit};
ghost use Rattle.certificate_terms.specs.Terms.{certificate_numbers, date_at, certificate_at, column_of, position_for};

use certificate_calendar::Date;

// A certificate: balance in thousands of dollars, coupon in hundredths of a percent a year.
#[derive(Clone, Copy, Debug, PartialEq, Eq)]
pub struct Certificate {
    pub issue: Date,
    pub maturity: Date,
    pub balance: u64,
    pub coupon: u64,
}

impl Certificate {
    // Certificate k of the list.
    #[tactic(auto, unfolding(crate::specs::Terms::certificate_at))]
    pub fn of_list(certificates: &[u64], k: usize) -> Certificate
        requires { certificate_numbers * k + certificate_numbers ≤ length certificates.now }
        ensures { result ≡ certificate_at certificates.now k }
    {
        let at = 8 * k;
        Certificate {
            issue: date_at(certificates, at),
            maturity: date_at(certificates, at + 3),
            balance: certificates[at + 6],
            coupon: certificates[at + 7],
        }
    }
}

// The date from an index of the list on.
#[tactic(auto, unfolding(crate::specs::Terms::date_at))]
fn date_at(certificates: &[u64], at: usize) -> Date
    requires { at + 2 < length certificates.now }
    ensures { result ≡ date_at certificates.now at }
{
    Date {
        year: certificates[at],
        month: certificates[at + 1],
        day: certificates[at + 2],
    }
}

// The index of a position, 0 to 8. Rows 3 and 4 begin with columns 2 and 3.
pub fn position_of(remaining: u64, original: u64) -> usize
    requires le_remaining { (1 ≤ remaining) × (remaining ≤ months_limit) }
    requires remaining_le_original { remaining ≤ original }
    ensures { result ≡ position_for remaining (column_of original) }
{
    let column = column_of(original);
    match remaining {
        0..=3 => column - 1,
        4..=12 => column + 2,
        13..=36 => column + 4,
        _ => column + 5,
    }
}

// The column of a maturity in original months.
#[tactic(auto, unfolding(crate::specs::Terms::column_of))]
fn column_of(months: u64) -> usize
    ensures { result ≡ column_of months }
{
    match months {
        0..=12 => 1,
        13..=36 => 2,
        _ => 3,
    }
}
