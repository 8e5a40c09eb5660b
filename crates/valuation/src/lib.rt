// Certificate deposits and borrowings under seven rate scenarios: from a filing's bytes to its 568 numbers and its borrowings' 374.
#![tactic(auto)]

ghost use Rattle.valuation.specs.Promise.{Valued};

use answers::Refusal;
use borrowing_numbers::write_borrowings;
use filing::read;
use form::CELLS;
use form::borrowings::BORROWING_NUMBERS;
use form::limits::SHEET_NUMBERS;
use form::sub_balances::NUMBERS;
use value_numbers::write_numbers;

// Values a filing: where it is accepted the 568 numbers stand in the first list and the borrowings' 374 in the second; on a refusal both are as they were. A list
// under 568 numbers, and then one under 374, is refused before the filing is read.
pub fn value(filing: &[u8], numbers: &mut [u64], borrowings: &mut [u64]) -> Result<(), Refusal>
    ensures valued { Valued filing.now numbers.old borrowings.old result numbers.new borrowings.new }
{
    if numbers.len() < NUMBERS {
        return Err(Refusal::ListTooShort(numbers.len()));
    }
    if borrowings.len() < BORROWING_NUMBERS {
        return Err(Refusal::ListTooShort(borrowings.len()));
    }
    let mut cells = [0; CELLS];
    let mut sheets = [0; SHEET_NUMBERS];
    let reading = read(filing, &mut cells, &mut sheets)?;
    write_numbers(&cells, reading.sums, &sheets, reading.tiers, numbers);
    write_borrowings(&cells, &sheets, borrowings);
    Ok(())
}
