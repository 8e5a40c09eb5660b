// The text that the listing prints of a filing.
#![tactic(auto)]

pub mod borrowings;
pub mod total_lines;

ghost use Rattle.std.specs.Prelude.{◌≡◌, take};
ghost use Rattle.text_listing.specs.Listing.{listing_text};

use crate::total_lines::append_scenarios;
use arrayvec::ArrayVec;
use form::borrowings::BORROWING_NUMBERS;
use form::sub_balances::{NUMBERS, TOTALS_START};
use text::answer_lines::append_refused;
use text::append_too_long;
use valuation::value;

// The most bytes of a filing.
pub const FILING_LIMIT: usize = 65536;

// What the program reads: one byte more than a filing may have, so that a longer input shows.
pub type Input = [u8; 65537];

// Seven lines of 89 bytes at most.
pub type Listing = ArrayVec<u8, 623>;

// The text of the first `size` bytes that were read.
pub fn write_read(input: &Input, size: usize) -> Listing
    ensures printed { result.items ≡ listing_text (take size input.now) }
{
    write_listing(&input[..size.min(input.len())])
}

// The text of a filing.
pub fn write_listing(filing: &[u8]) -> Listing
    ensures printed { result.items ≡ listing_text filing.now }
{
    let mut text = ArrayVec::new();
    if FILING_LIMIT < filing.len() {
        append_too_long(&mut text);
        return text;
    }
    let mut numbers = [0u64; NUMBERS];
    let mut borrowings = [0u64; BORROWING_NUMBERS];
    if let Err(refusal) = value(filing, &mut numbers, &mut borrowings) {
        append_refused(&mut text, refusal);
        return text;
    }
    append_scenarios(&mut text, &numbers, TOTALS_START, 4);
    text
}
