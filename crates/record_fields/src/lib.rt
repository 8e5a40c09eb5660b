// What a record of a filing holds: its length and kind, its cell and value, the numbers of a sheet. A number past the end is 0.
#![tactic(auto)]

mod bytes;

ghost use Rattle.std.specs.Prelude.{◌≡◌, true, ◌+◌, ◌*◌, ◌≤◌, leb, length};
ghost use Rattle.record_fields.specs.Bytes.{number_at};
ghost use Rattle.record_fields.specs.Records.{record_length, record_kind, record_cell, record_value, amendment_number, amendment_state, amendment_value, sheet_number, tier_count};

use crate::bytes::{number_at, number_within};

// The number of bytes after the length itself.
pub fn record_length(s: &[u8], at: usize) -> usize
    ensures { result ≡ record_length s.now at }
{
    field_at(s, at, 0, 2) as usize
}

// The kind of a record.
pub fn record_kind(s: &[u8], at: usize) -> usize
    ensures { result ≡ record_kind s.now at }
{
    field_at(s, at, 2, 2) as usize
}

// The cell of a record that gives a cell its value.
pub fn record_cell(s: &[u8], at: usize) -> u64
    ensures { result ≡ record_cell s.now at }
{
    field_at(s, at, 4, 2)
}

// The value of a record that gives a cell its value, in that kind's unit.
pub fn record_value(s: &[u8], at: usize) -> u64
    ensures { result ≡ record_value s.now at }
{
    field_at(s, at, 6, 8)
}

// Kind 7, an amendment of a cell: its number, its state, and its value in kind 1's unit.
pub fn amendment_number(s: &[u8], at: usize) -> u16
    ensures { result ≡ amendment_number s.now at }
{
    sheet_number(s, at, 2)
}

pub fn amendment_state(s: &[u8], at: usize) -> u16
    ensures { result ≡ amendment_state s.now at }
{
    sheet_number(s, at, 3)
}

pub fn amendment_value(s: &[u8], at: usize) -> u64
    ensures { result ≡ amendment_value s.now at }
{
    field_at(s, at, 10, 8)
}

// The i-th number of a sheet, from 1.
pub fn sheet_number(s: &[u8], at: usize, i: usize) -> u16
    ensures { result ≡ sheet_number s.now at i }
{
    if s.len() <= i {
        return 0;
    }
    field_at(s, at, 2 + 2 * i, 2) as u16
}

// The same, where it may be known that the numbers up to it lie before the end.
pub fn number_of(s: &[u8], at: usize, i: usize, within: bool) -> u16
    requires { within ≡ true → at + 4 + 2 * i ≤ length s.now }
    ensures { result ≡ sheet_number s.now at i }
{
    if within {
        number_in(s, at, i)
    } else {
        sheet_number(s, at, i)
    }
}

// The same of a number that lies before the end.
fn number_in(s: &[u8], at: usize, i: usize) -> u16
    requires { at + 4 + 2 * i ≤ length s.now }
    ensures { result ≡ sheet_number s.now at i }
{
    number_within(s, at + 2 + 2 * i, 2) as u16
}

// The first n numbers of a sheet lie before the end.
pub fn holds_numbers(s: &[u8], at: usize, n: usize) -> bool
    ensures { result ≡ leb (at + 4 + 2 * n) (length s.now) }
{
    if s.len() < 4 {
        return false;
    }
    let room = s.len() - 4;
    if room < at {
        return false;
    }
    n <= (room - at) / 2
}

// Kind 4: how many tiers there are.
pub fn tier_count(s: &[u8], at: usize) -> u16
    ensures { result ≡ tier_count s.now at }
{
    sheet_number(s, at, 1)
}

// The same as below, of a number that lies before the end.
pub fn field_within(s: &[u8], at: usize, skip: usize, width: usize) -> u64
    requires { (width ≤ 8) × (at + skip + width ≤ length s.now) }
    ensures { result ≡ number_at s.now (at + skip) width }
{
    number_within(s, at + skip, width)
}

// The number of `width` bytes that stands `skip` bytes into the record at an offset.
fn field_at(s: &[u8], at: usize, skip: usize, width: usize) -> u64
    requires { width ≤ 8 }
    ensures { result ≡ number_at s.now (at + skip) width }
{
    if s.len() <= at {
        return 0;
    }
    let room = s.len() - at;
    if room <= skip {
        return 0;
    }
    if room - skip < width {
        return number_at(s, at + skip, width);
    }
    number_within(s, at + skip, width)
}
