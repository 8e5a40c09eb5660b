// What a filing says, read from the noted offsets of its records: its cells, and its sheets.
#![tactic(auto)]

ghost use Rattle.std.specs.Prelude.{◌≡◌, ◌+◌, ◌≤◌, length};
ghost use Rattle.lists.specs.Runs.{written};
ghost use Rattle.lists.specs.Tables.{table_from};
ghost use Rattle.form.specs.Cells.{cell_count};
ghost use Rattle.form.specs.Limits.{rates_start, sheet_number_count};
ghost use Rattle.record_fields.specs.Records.{sheet_number};
ghost use Rattle.record_kinds.specs.Kinds.{flat_rates_kind, rate_path_kind, sheet_kind};
ghost use Rattle.record_offsets.specs.Inner.Notes.{noted_before};
ghost use Rattle.record_verdicts.specs.RecordVerdicts.{first_faulty};
ghost use Rattle.filing_contents.specs.Contents.{contents_in};
ghost use Rattle.filing_decode.specs.Contents.{sheet_offset, contents_of};

use filing_contents::FiledTiers;
use filing_contents::cell_amounts::amount_at;
use filing_contents::sheet_numbers::{fill_flat, fill_numbers, tiers_at};
use form::CELLS;
use form::limits::{RATES, RATES_START, SHEET_NUMBERS};
use record_kinds::{
    FLAT_RATES_KIND, KINDS, LIBOR_KIND, RATE_PATH_KIND, TIERS_KIND, YIELDS_KIND, sheet_kind,
};

// Fills in the values of the cells of a filing whose records are sound, from the records that count for them.
pub fn fill_cells(s: &[u8], offsets: &[usize; CELLS], cells: &mut [u64; CELLS])
    requires s_value { (first_faulty s.now ≡ length s.now) × (offsets.now ≡ (noted_before s.now (length s.now)).counting) }
    requires cells_len { length cells.old ≡ cell_count }
    ensures { cells.new ≡ (contents_of s.now).cells }
{
    for i in 0..CELLS {
        cells[i] = amount_at(s, offsets[i]);
    }
}

// Fills in the numbers of a filing's sheets, from where they stand, and answers its tiers.
pub fn fill_sheets(
    s: &[u8],
    sheets: &[usize; KINDS],
    numbers: &mut [u16; SHEET_NUMBERS],
) -> FiledTiers
    requires { sheets.now ≡ (noted_before s.now (length s.now)).sheets }
    ensures { contents_in (contents_of s.now).cells numbers.new result ≡ contents_of s.now }
{
    fill_sheet(s, sheets[YIELDS_KIND], YIELDS_KIND, numbers);
    fill_rates(s, sheets[FLAT_RATES_KIND], sheets[RATE_PATH_KIND], numbers);
    fill_sheet(s, sheets[LIBOR_KIND], LIBOR_KIND, numbers);
    tiers_at(s, sheets[TIERS_KIND])
}

// Fills in the numbers of a kind of sheet, from the sheet at an offset, where they stand among those of all sheets.
fn fill_sheet(s: &[u8], at: usize, kind: usize, numbers: &mut [u16])
    requires { (sheet_kind kind).start + (sheet_kind kind).numbers ≤ length numbers.old }
    ensures { numbers.new ≡ written numbers.old (sheet_kind kind).start (table_from 1 (sheet_kind kind).numbers (sheet_number s.now at)) }
{
    let sheet = sheet_kind(kind);
    let start = sheet.start;
    let end = start + sheet.numbers as usize;
    fill_numbers(s, at, &mut numbers[start..end]);
}

// Fills in the retail rates column by column, by the sheets of flat ones and of those by month.
fn fill_rates(s: &[u8], flat: usize, path: usize, numbers: &mut [u16])
    requires { (flat ≡ sheet_offset s.now flat_rates_kind) × (path ≡ sheet_offset s.now rate_path_kind) × (length numbers.old ≡ sheet_number_count) }
    ensures { numbers.new ≡ written numbers.old rates_start (contents_of s.now).rates }
{
    if path < s.len() {
        fill_sheet(s, path, RATE_PATH_KIND, numbers);
    } else {
        fill_flat(s, flat, &mut numbers[RATES_START..RATES_START + RATES]);
    }
}
