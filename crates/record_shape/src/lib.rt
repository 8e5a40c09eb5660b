// The tests of one record before its body: refusals 1 to 4 and 12. Those of its body stand in `record_limits`.
#![tactic(auto)]

ghost use Rattle.std.specs.Prelude.{◌≡◌, ◌≤◌, length};
ghost use Rattle.record_offsets.specs.Inner.Notes.{noted_before};
ghost use Rattle.record_shape.specs.Faults as faults;

use form::{CELLS, FIRST_CELL};
use record_fields::{record_kind, record_length};
use record_kinds::items::{Item, record_class, record_item};
use record_kinds::{FLAT_RATES_KIND, KINDS, RATE_PATH_KIND, due_length, names_cell};

// 1: the record runs past the end, its length or itself, or its length is below 2.
pub fn incomplete(s: &[u8], at: usize) -> bool
    ensures { result ≡ faults.incomplete s.now at }
{
    if s.len() <= at {
        return true;
    }
    let body = at + 2;
    let length = record_length(s, at);
    (s.len() < body) | ((length < 2) | (s.len() < body + length))
}

// 2: the kind is unknown, or the length is not that kind's.
pub fn misshapen(s: &[u8], at: usize) -> bool
    ensures { result ≡ faults.misshapen s.now at }
{
    record_length(s, at) != due_length(s, at)
}

// 3: the cell is not listed for a record of its kind.
pub fn unlisted(s: &[u8], at: usize) -> bool
    ensures { result ≡ faults.unlisted s.now at }
{
    names_cell(record_kind(s, at)) & (record_class(s, at) == 0)
}

// 4: the cell, or the kind of sheet, stands in an earlier record.
pub fn repeated(s: &[u8], at: usize, sheets: &[usize; KINDS], cells: &[usize; CELLS]) -> bool
    requires { (at ≤ length s.now) × (sheets.now ≡ (noted_before s.now at).sheets) × (cells.now ≡ (noted_before s.now at).cells) }
    ensures { result ≡ faults.repeated s.now at }
{
    match record_item(s, at) {
        Some(Item::Cell(cell)) => {
            let i = (cell - FIRST_CELL) as usize;
            cells[i] < s.len()
        }
        Some(Item::Sheet(kind)) => sheets[kind] < s.len(),
        Some(Item::Amendment(_, _)) => false,
        None => false,
    }
}

// 12: retail rates by month beside flat ones.
pub fn path_beside_flat(s: &[u8], at: usize, sheets: &[usize; KINDS]) -> bool
    requires { (at ≤ length s.now) × (sheets.now ≡ (noted_before s.now at).sheets) }
    ensures { result ≡ faults.path_beside_flat s.now at }
{
    let kind = record_kind(s, at);
    if kind == FLAT_RATES_KIND {
        return sheets[RATE_PATH_KIND] < s.len();
    }
    if kind == RATE_PATH_KIND {
        return sheets[FLAT_RATES_KIND] < s.len();
    }
    false
}
