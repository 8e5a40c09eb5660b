// A filing of certificate deposits and borrowings, from its bytes to what it says.
#![tactic(auto)]

pub mod readings;
mod required_sheets;

ghost use Rattle.std.specs.Prelude.{◌≡◌, IfOk, length};
ghost use Rattle.answers.specs.Answers.{verdict_of};
ghost use Rattle.record_offsets.specs.Inner.Notes.{noted_before};
ghost use Rattle.record_verdicts.specs.RecordVerdicts.{records_verdict};
ghost use Rattle.filing_decode.specs.Contents.{contents_of};
ghost use Rattle.filing_cells.specs.Inner.Sums.{column_sums};
ghost use Rattle.filing.specs.RequiredSheets.{sheet_verdict};
ghost use Rattle.filing.specs.Verdict.{filing_verdict};
ghost use Rattle.filing.specs.Readings.{read_over, lent, left_by};

use crate::readings::Reading;
use crate::required_sheets::{check_libor, check_sheets};
use answers::Refusal;
use filing_cells::check_cells;
use filing_decode::{fill_cells, fill_sheets};
use form::CELLS;
use form::limits::SHEET_NUMBERS;
use record_checks::check_records;
use record_kinds::KINDS;
use record_offsets::BLOCKS;

// Reads a filing: its records front to back, then the sheets that must be there, then the conditions on its cells. Only then is what it says written into the
// lent arrays: a refusal leaves them as they were.
pub fn read(
    filing: &[u8],
    cells: &mut [u64; CELLS],
    numbers: &mut [u16; SHEET_NUMBERS],
) -> Result<Reading, Refusal>
    ensures answered { verdict_of result ≡ filing_verdict filing.now }
    ensures said { left_by cells.new numbers.new result ≡ read_over filing.now (lent cells.old numbers.old) }
    ensures summed { IfOk result (λ r. r.sums ≡ column_sums (contents_of filing.now).cells) }
{
    let mut sheets = [0; KINDS];
    let mut noted = [0; CELLS];
    let mut counting = [0; CELLS];
    let mut falling = [false; BLOCKS];
    check_records(filing, &mut sheets, &mut noted, &mut counting, &mut falling)?;
    check_sheets(filing, &sheets)?;
    read_contents(filing, &sheets, &counting, cells, numbers)
}

// Reads what a filing says whose records are sound and whose sheets are there.
fn read_contents(
    filing: &[u8],
    sheets: &[usize; KINDS],
    counting: &[usize; CELLS],
    cells: &mut [u64; CELLS],
    numbers: &mut [u16; SHEET_NUMBERS],
) -> Result<Reading, Refusal>
    requires filing_value { ((records_verdict filing.now).number ≡ 0) × ((sheet_verdict filing.now).number ≡ 0) }
    requires sheets_value { (sheets.now ≡ (noted_before filing.now (length filing.now)).sheets) × (counting.now ≡ (noted_before filing.now (length filing.now)).counting) }
    ensures answered { verdict_of result ≡ filing_verdict filing.now }
    ensures said { left_by cells.new numbers.new result ≡ read_over filing.now (lent cells.old numbers.old) }
    ensures summed { IfOk result (λ r. r.sums ≡ column_sums (contents_of filing.now).cells) }
{
    let mut said = [0; CELLS];
    fill_cells(filing, counting, &mut said);
    check_libor(filing, sheets, &said)?;
    let sums = check_cells(&said)?;
    *cells = said;
    let tiers = fill_sheets(filing, sheets, numbers);
    Ok(Reading { tiers, sums })
}
