// The sound records of cells and of amendments, the most frequent ones, told at once.

mod limits;

ghost use Rattle.std.specs.Prelude.{◌≡◌, true, ◌+◌, ◌≤◌, eqb, length};
ghost use Rattle.record_fields.specs.Records.{record_kind};
ghost use Rattle.record_kinds.specs.Kinds.{fine_coupon_kind, amendment_kind, gives_cell};
ghost use Rattle.record_offsets.specs.Inner.Notes.{noted_before};
ghost use Rattle.record_verdicts.specs.Inner.SoundRecords.{sound_named};

use crate::sound_records::limits::most_in;
use form::tables::{cell_class, class_limit};
use form::{CELLS, FIRST_CELL};
use record_fields::field_within;
use record_kinds::{AMENDMENT_KIND, FINE_COUPON_KIND, gives_cell};
use record_limits::unfit_for;

// A record of kind 1, 6 or 7 that has no fault but perhaps 16.
pub fn sound_record(s: &[u8], at: usize, cells: &[usize; CELLS]) -> bool
    requires { cells.now ≡ (noted_before s.now at).cells }
    ensures { result ≡ sound_named s.now at }
{
    if s.len() < 14 {
        return false;
    }
    if s.len() - 14 < at {
        return false;
    }
    let kind = field_within(s, at, 2, 2) as usize;
    if kind == AMENDMENT_KIND {
        return sound_amendment(s, at);
    }
    if !gives_cell(kind) {
        return false;
    }
    sound_value(s, at, kind == FINE_COUPON_KIND, cells)
}

// The same of a record of kind 1, or of kind 6 where `fine`, that may lie within the bytes.
fn sound_value(s: &[u8], at: usize, fine: bool, cells: &[usize; CELLS]) -> bool
    requires at_in_bounds { (at + 14 ≤ length s.now) × (gives_cell (record_kind s.now at) ≡ true) × (fine ≡ eqb (record_kind s.now at) fine_coupon_kind) }
    requires cells_value { cells.now ≡ (noted_before s.now at).cells }
    ensures { result ≡ sound_named s.now at }
{
    if field_within(s, at, 0, 2) != 12 {
        return false;
    }
    let cell = field_within(s, at, 4, 2);
    let limit = most_in(cell, fine);
    if limit == 0 {
        return false;
    }
    let i = (cell - FIRST_CELL) as usize;
    if cells[i] < s.len() {
        return false;
    }
    field_within(s, at, 6, 8) <= limit
}

// The same of an amendment.
fn sound_amendment(s: &[u8], at: usize) -> bool
    requires { (at + 14 ≤ length s.now) × (record_kind s.now at ≡ amendment_kind) }
    ensures { result ≡ sound_named s.now at }
{
    if s.len() - at < 18 {
        return false;
    }
    if field_within(s, at, 0, 2) != 16 {
        return false;
    }
    let limit = class_limit(cell_class(field_within(s, at, 4, 2)));
    if limit == 0 {
        return false;
    }
    !unfit_for(
        limit,
        field_within(s, at, 6, 2),
        field_within(s, at, 8, 2),
        field_within(s, at, 10, 8),
    )
}
