// The records of a filing by all tests: those that the scan makes of each record, and 16, that no amendment of a cell comes with a number that an earlier one
// has.
#![tactic(auto)]

pub mod number_set;
pub mod repetitions;
pub mod scan;

ghost use Rattle.std.specs.Prelude.{◌≡◌, ◌<◌, length};
ghost use Rattle.answers.specs.Answers.{verdict_of};
ghost use Rattle.record_offsets.specs.Inner.Notes.{noted_as, noted_before};
ghost use Rattle.record_shape.specs.Faults.{amendment_repeated};
ghost use Rattle.record_verdicts.specs.RecordVerdicts.{record_verdict, first_faulty, records_verdict};
ghost use Rattle.record_verdicts.specs.Inner.PlainVerdicts.{first_plain};
ghost use Rattle.record_checks.specs.Inner.Scans.{end_of};

use crate::repetitions::first_repetition;
use crate::repetitions::pass::amended_before;
use crate::scan::scan;
use answers::Refusal;
use form::CELLS;
use record_kinds::KINDS;
use record_kinds::items::{Item, record_item};
use record_offsets::BLOCKS;
use record_verdicts::{check_body, check_shape};

// The answer on the records. Those before the first that is faulty but for 16 are noted.
pub fn check_records(
    s: &[u8],
    sheets: &mut [usize; KINDS],
    cells: &mut [usize; CELLS],
    counting: &mut [usize; CELLS],
    falling: &mut [bool; BLOCKS],
) -> Result<(), Refusal>
    ensures verdict { verdict_of result ≡ records_verdict s.now }
    ensures noted { noted_as sheets.new cells.new counting.new falling.new
        ≡ noted_before s.now (first_plain s.now) }
    ensures end { end_of s.now result ≡ first_faulty s.now }
{
    let end = scan(s, sheets, cells, counting, falling);
    let first = first_repetition(s, falling, end);
    if first < end {
        return Err(Refusal::AmendmentRepeated(first));
    }
    if s.len() <= end {
        return Ok(());
    }
    check_fully(s, end, sheets, cells)
}

// The answer on the record at an offset by all tests.
fn check_fully(
    s: &[u8],
    at: usize,
    sheets: &[usize; KINDS],
    cells: &[usize; CELLS],
) -> Result<(), Refusal>
    requires { (at < length s.now) × (sheets.now ≡ (noted_before s.now at).sheets) × (cells.now ≡ (noted_before s.now at).cells) }
    ensures { verdict_of result ≡ record_verdict s.now at }
{
    check_shape(s, at, sheets, cells)?;
    if amendment_repeated(s, at) {
        return Err(Refusal::AmendmentRepeated(at));
    }
    check_body(s, at)
}

// 16: the amendment of the same cell and number stands in an earlier record.
fn amendment_repeated(s: &[u8], at: usize) -> bool
    requires { at < length s.now }
    ensures { result ≡ amendment_repeated s.now at }
{
    match record_item(s, at) {
        Some(Item::Amendment(cell, number)) => amended_before(s, cell, number, at),
        Some(Item::Cell(_)) => false,
        Some(Item::Sheet(_)) => false,
        None => false,
    }
}
