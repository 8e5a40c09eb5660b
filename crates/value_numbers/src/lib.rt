// The 568 numbers of what an accepted filing says, written into a list. Its cells and the numbers of its sheets are lent: in the contracts k is the filing's
// contents, with these arrays and the tiers passed.
#![tactic(auto)]

ghost use Rattle.std.specs.Prelude.{◌≡◌, ◌++◌, ◌≤◌, length, drop};
ghost use Rattle.lists.specs.Tables.{table, joined};
ghost use Rattle.filing_cells.specs.Inner.Sums.{column_sums};
ghost use Rattle.filing_contents.specs.Contents.{Contents, contents_in};
ghost use Rattle.filing_contents.specs.Valid.{Valid};
ghost use Rattle.form.specs.PlaceOrder.{sub_balance_count};
ghost use Rattle.form.specs.Counts.{totals_start, number_count};
ghost use Rattle.value_numbers.specs.Numbers.{place_numbers, numbers};

use filing_cells::column_sums::ColumnSums;
use filing_contents::FiledTiers;
use filing_contents::sheet_rows::{PositionKind, row_used};
use form::CELLS;
use form::limits::{RATES, RATES_START, SHEET_NUMBERS, TERM_MONTHS};
use form::sub_balances::{PLACE_NUMBERS, SCENARIOS, SUB_BALANCES, TOTALS_START};
use lists::write;
use price_factors::FACTORS;
use price_multipliers::discount_tables::discount_tables;
use pricing::Bounds;
use shares::places::places_of;
use value_places::longest_term::longest_term;
use value_places::place_row::row_of;
use value_places::totals::totals_of;
use withdrawal_filing::tiers_of;

// The rows of the places, and then the totals, which are taken from the rows. The rest of the list is left as it was.
pub fn write_numbers(
    cells: &[u64; CELLS],
    sums: ColumnSums,
    sheets: &[u16; SHEET_NUMBERS],
    tiers: FiledTiers,
    list: &mut [u64],
)
    requires { let k : Contents = contents_in cells.now sheets.now tiers in Valid k × (sums ≡ column_sums k.cells) × (number_count ≤ length list.old) }
    ensures { let k : Contents = contents_in cells.now sheets.now tiers in list.new ≡ numbers k ++ drop number_count list.old }
{
    write_rows(cells, sums, sheets, tiers, list);
    let totals = totals_of(list);
    write(list, TOTALS_START, &totals);
}

// The fifteen numbers of each place, one place after the other.
fn write_rows(
    cells: &[u64; CELLS],
    sums: ColumnSums,
    sheets: &[u16; SHEET_NUMBERS],
    filed: FiledTiers,
    list: &mut [u64],
)
    requires { let k : Contents = contents_in cells.now sheets.now filed in Valid k × (sums ≡ column_sums k.cells) × (totals_start ≤ length list.old) }
    ensures { let k : Contents = contents_in cells.now sheets.now filed in list.new ≡ joined (table sub_balance_count (place_numbers k)) ++ drop totals_start list.old }
{
    let tiers = tiers_of(filed);
    let places = places_of(cells, sums);
    let longest = longest_term(places);
    let mut discounts = Bounds {
        lower: [0u64; FACTORS],
        upper: [0u64; FACTORS],
    };
    let yields = row_used(sheets, PositionKind::Certificate);
    let numbers: &[u16] = sheets;
    let rates = &numbers[RATES_START..RATES_START + RATES];
    discount_tables(yields, longest, &mut discounts);
    let mut months = [[0u8; SCENARIOS]; TERM_MONTHS];
    for place in 0..SUB_BALANCES {
        let row = row_of(places[place], place, rates, &tiers, &discounts, &mut months);
        write(list, PLACE_NUMBERS * place, &row);
    }
}
