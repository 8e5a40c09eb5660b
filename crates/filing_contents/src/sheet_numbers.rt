// The numbers of the sheet at an offset: in an array that is lent, flat rates in each month, and tiers.
ghost use Rattle.std.specs.Prelude.{◌≡◌, cond, ◌+◌, ◌/◌, ◌≤◌, ◌<◌, ltb, length, get_or};
ghost use Rattle.lists.specs.Tables.{table, table_from};
ghost use Rattle.form.specs.Limits.{sheet_months, tier_limit, rate_count};
ghost use Rattle.record_fields.specs.Records.{sheet_number};
ghost use Rattle.filing_contents.specs.Sheets.{tier_number, tiers_at};

use crate::FiledTiers;
use form::limits::TIER_LIMIT;
use record_fields::{holds_numbers, number_of, sheet_number, tier_count};

// Fills in the numbers of the sheet at an offset, from the first on.
pub fn fill_numbers(s: &[u8], at: usize, numbers: &mut [u16])
    ensures { numbers.new ≡ table_from 1 (length numbers.old) (sheet_number s.now at) }
{
    let within = holds_numbers(s, at, numbers.len());
    for i in 0..numbers.len() {
        numbers[i] = number_of(s, at, i + 1, within);
    }
}

// Fills in the retail rates of a sheet of flat ones: each in the 120 months of its column.
pub fn fill_flat(s: &[u8], flat: usize, rates: &mut [u16])
    requires { length rates.old ≡ rate_count }
    ensures { rates.new ≡ table rate_count (λ i. sheet_number s.now flat (i / sheet_months + 1)) }
{
    let first = sheet_number(s, flat, 1);
    let second = sheet_number(s, flat, 2);
    let third = sheet_number(s, flat, 3);
    fill_from(rates, 0, first);
    fill_from(rates, 120, second);
    fill_from(rates, 240, third);
}

// Fills in a rate from an index on.
fn fill_from(rates: &mut [u16], from: usize, rate: u16)
    requires { (from ≤ rate_count) × (length rates.old ≡ rate_count) }
    ensures { rates.new ≡ table rate_count (λ i. cond (ltb i from) (get_or rates.old i 0) rate) }
{
    rates[from..].fill(rate);
}

// The tiers of the record at an offset.
pub fn tiers_at(s: &[u8], at: usize) -> FiledTiers
    ensures { result ≡ tiers_at s.now at }
{
    let count = tier_count(s, at) as usize;
    FiledTiers {
        count,
        edges: tier_numbers(s, at, count, 2),
        withdrawals: tier_numbers(s, at, count, 3),
    }
}

// Every second number of a record of tiers from `first` on, one for each tier: the edges from the second number on, the withdrawals from the third.
fn tier_numbers(s: &[u8], at: usize, count: usize, first: usize) -> [u16; TIER_LIMIT]
    requires { first ≤ 3 }
    ensures { result ≡ table tier_limit (tier_number s.now at count first) }
{
    std::array::from_fn(|i| tier_number(s, at, count, first, i))
}

// The number of the i-th tier, from 0; 0 past the last.
fn tier_number(s: &[u8], at: usize, count: usize, first: usize, i: usize) -> u16
    requires { (first ≤ 3) × (i < tier_limit) }
    ensures { result ≡ tier_number s.now at count first i }
{
    if i < count {
        sheet_number(s, at, first + 2 * i)
    } else {
        0
    }
}
