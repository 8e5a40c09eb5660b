// The sheets that a filing must have: refusal 6, and 18 where it has borrowings.
ghost use Rattle.std.specs.Prelude.{◌≡◌, length};
ghost use Rattle.answers.specs.Answers.{verdict_of};
ghost use Rattle.record_offsets.specs.Inner.Notes.{noted_before};
ghost use Rattle.filing_decode.specs.Contents.{contents_of};
ghost use Rattle.filing.specs.RequiredSheets.{sheet_verdict, libor_verdict};

use answers::Refusal;
use filing_cells::borrowings::some_borrowed;
use form::CELLS;
use record_kinds::{FLAT_RATES_KIND, KINDS, LIBOR_KIND, RATE_PATH_KIND, YIELDS_KIND};

// 6, from where the sheets stand: one that is missing is noted at the input's length.
pub(crate) fn check_sheets(s: &[u8], sheets: &[usize; KINDS]) -> Result<(), Refusal>
    requires { sheets.now ≡ (noted_before s.now (length s.now)).sheets }
    ensures { verdict_of result ≡ sheet_verdict s.now }
{
    if s.len() <= sheets[YIELDS_KIND] {
        return Err(Refusal::SheetMissing(s.len()));
    }
    if sheets[FLAT_RATES_KIND] < s.len() {
        return Ok(());
    }
    if sheets[RATE_PATH_KIND] < s.len() {
        return Ok(());
    }
    Err(Refusal::SheetMissing(s.len()))
}

// 18, from where the sheets stand and the cells that the filing says.
pub(crate) fn check_libor(
    s: &[u8],
    sheets: &[usize; KINDS],
    cells: &[u64; CELLS],
) -> Result<(), Refusal>
    requires { (sheets.now ≡ (noted_before s.now (length s.now)).sheets) × (cells.now ≡ (contents_of s.now).cells) }
    ensures { verdict_of result ≡ libor_verdict s.now }
{
    if sheets[LIBOR_KIND] < s.len() {
        return Ok(());
    }
    if some_borrowed(cells) {
        return Err(Refusal::LiborMissing(s.len()));
    }
    Ok(())
}
