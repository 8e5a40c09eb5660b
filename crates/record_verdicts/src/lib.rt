// The verdict on one record but for 16: refusals 1 to 4, 12, 5 and 11, in the paper's order.
#![tactic(auto)]

pub mod sound_records;

ghost use Rattle.std.specs.Prelude.{◌≡◌, ◌≤◌, length};
ghost use Rattle.answers.specs.Answers.{verdict_of};
ghost use Rattle.record_offsets.specs.Inner.Notes.{noted_before};
ghost use Rattle.record_verdicts.specs.RecordVerdicts.{shape_verdict, body_verdict};
ghost use Rattle.record_verdicts.specs.Inner.PlainVerdicts.{plain_verdict};

use answers::Refusal;
use form::CELLS;
use record_kinds::KINDS;
use record_limits::over_limit;
use record_limits::tier_faults::unsound_tiers;
use record_shape::{incomplete, misshapen, path_beside_flat, repeated, unlisted};

// The answer on the record at an offset by all tests but 16, given what is noted of the records before it.
pub fn check_record(
    s: &[u8],
    at: usize,
    sheets: &[usize; KINDS],
    cells: &[usize; CELLS],
) -> Result<(), Refusal>
    requires { (at ≤ length s.now) × (sheets.now ≡ (noted_before s.now at).sheets) × (cells.now ≡ (noted_before s.now at).cells) }
    ensures { verdict_of result ≡ plain_verdict s.now at }
{
    check_shape(s, at, sheets, cells)?;
    check_body(s, at)
}

// The tests before 16: 1 to 4 and 12.
pub fn check_shape(
    s: &[u8],
    at: usize,
    sheets: &[usize; KINDS],
    cells: &[usize; CELLS],
) -> Result<(), Refusal>
    requires { (at ≤ length s.now) × (sheets.now ≡ (noted_before s.now at).sheets) × (cells.now ≡ (noted_before s.now at).cells) }
    ensures { verdict_of result ≡ shape_verdict s.now at }
{
    if incomplete(s, at) {
        return Err(Refusal::RecordIncomplete(at));
    }
    if misshapen(s, at) {
        return Err(Refusal::RecordMisshapen(at));
    }
    if unlisted(s, at) {
        return Err(Refusal::CellUnlisted(at));
    }
    if repeated(s, at, sheets, cells) {
        return Err(Refusal::Repeated(at));
    }
    if path_beside_flat(s, at, sheets) {
        return Err(Refusal::PathBesideFlat(at));
    }
    Ok(())
}

// The tests after 16: 5 and 11.
pub fn check_body(s: &[u8], at: usize) -> Result<(), Refusal>
    ensures { verdict_of result ≡ body_verdict s.now at }
{
    if over_limit(s, at) {
        return Err(Refusal::OverLimit(at));
    }
    if unsound_tiers(s, at) {
        return Err(Refusal::TiersUnsound(at));
    }
    Ok(())
}
