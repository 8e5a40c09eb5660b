// The kinds of record: what a sheet of each kind holds, and the length that a record is to have.
#![tactic(auto)]

pub mod items;

ghost use Rattle.std.specs.Prelude.{◌≡◌};
ghost use Rattle.record_kinds.specs.Kinds.{gives_cell, names_cell, sheet_of, sheet_kind, due_length};

use form::limits::{LIBOR_START, RATE_LIMIT, RATES, RATES_START, SHEET_MONTHS, YIELDS_START};
use record_fields::{record_kind, tier_count};

// The kinds of record are below this number.
pub const KINDS: usize = 9;

// The kinds: a cell, CD yields, flat retail rates, tiers, retail rates by month, a coupon in thousandths, an amendment, LIBOR yields.
pub const CELL_KIND: usize = 1;

pub const YIELDS_KIND: usize = 2;

pub const FLAT_RATES_KIND: usize = 3;

pub const TIERS_KIND: usize = 4;

pub const RATE_PATH_KIND: usize = 5;

pub const FINE_COUPON_KIND: usize = 6;

pub const AMENDMENT_KIND: usize = 7;

pub const LIBOR_KIND: usize = 8;

// A kind of sheet: how many numbers it holds, 2 bytes each, the largest that each may be, and where the first stands in the array of the numbers of all
// sheets. One that is no sheet holds none.
#[derive(Clone, Copy)]
pub struct SheetKind {
    pub numbers: u16,
    pub limit: u16,
    pub start: usize,
}

// The sheet of a kind.
pub fn sheet_kind(kind: usize) -> SheetKind
    ensures { result ≡ sheet_kind kind }
{
    match kind {
        0 => sheet_of(0, 0, 0),
        1 => sheet_of(0, 0, 0),
        2 => sheet_of(SHEET_MONTHS as u16, RATE_LIMIT, YIELDS_START),
        3 => sheet_of(3, RATE_LIMIT, RATES_START),
        4 => sheet_of(0, 0, 0),
        5 => sheet_of(RATES as u16, RATE_LIMIT, RATES_START),
        6 => sheet_of(0, 0, 0),
        7 => sheet_of(0, 0, 0),
        8 => sheet_of(SHEET_MONTHS as u16, RATE_LIMIT, LIBOR_START),
        _ => sheet_of(0, 0, 0),
    }
}

// A sheet of so many numbers up to a limit, from `start` on in the array.
fn sheet_of(numbers: u16, limit: u16, start: usize) -> SheetKind
    ensures { result ≡ sheet_of numbers limit start }
{
    SheetKind {
        numbers,
        limit,
        start,
    }
}

// A kind that gives a cell its value.
pub fn gives_cell(kind: usize) -> bool
    ensures { result ≡ gives_cell kind }
{
    (kind == CELL_KIND) | (kind == FINE_COUPON_KIND)
}

// A kind whose body begins with a cell.
pub fn names_cell(kind: usize) -> bool
    ensures { result ≡ names_cell kind }
{
    gives_cell(kind) | (kind == AMENDMENT_KIND)
}

// The length that a record is to have by its kind: 0 where the kind is unknown.
pub fn due_length(s: &[u8], at: usize) -> usize
    ensures { result ≡ due_length s.now at }
{
    let kind = record_kind(s, at);
    if gives_cell(kind) {
        return 12;
    }
    if kind == AMENDMENT_KIND {
        return 16;
    }
    if kind == TIERS_KIND {
        return 4 + 4 * (tier_count(s, at) as usize);
    }
    let sheet = sheet_kind(kind);
    if sheet.numbers == 0 {
        return 0;
    }
    2 + 2 * (sheet.numbers as usize)
}
