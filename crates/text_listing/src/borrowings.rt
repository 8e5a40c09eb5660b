// The text that the program `borrowings` prints of a filing.
ghost use Rattle.std.specs.Prelude.{◌≡◌, take};
ghost use Rattle.text_listing.specs.BorrowingListing.{borrowings_text};

use crate::total_lines::append_scenarios;
use crate::{FILING_LIMIT, Input, Listing};
use arrayvec::ArrayVec;
use form::borrowings::{BORROWING_NUMBERS, BORROWING_TOTALS_START};
use form::sub_balances::NUMBERS;
use text::answer_lines::append_refused;
use text::append_too_long;
use valuation::value;

// The text of the first `size` bytes that were read.
pub fn write_borrowings_read(input: &Input, size: usize) -> Listing
    ensures printed { result.items ≡ borrowings_text (take size input.now) }
{
    write_borrowings(&input[..size.min(input.len())])
}

// The text of a filing's borrowings. It stands beside `write_listing`, since one function of both would take the list, its start and the count of totals.
pub fn write_borrowings(filing: &[u8]) -> Listing
    ensures printed { result.items ≡ borrowings_text filing.now }
{
    let mut text = ArrayVec::new();
    if FILING_LIMIT < filing.len() {
        append_too_long(&mut text);
        return text;
    }
    let mut numbers = [0u64; NUMBERS];
    let mut borrowings = [0u64; BORROWING_NUMBERS];
    if let Err(refusal) = value(filing, &mut numbers, &mut borrowings) {
        append_refused(&mut text, refusal);
        return text;
    }
    append_scenarios(&mut text, &borrowings, BORROWING_TOTALS_START, 2);
    text
}
