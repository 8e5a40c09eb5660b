// The calls for programs in C and in languages that call C, as include/spritapricot.h declares them: the valuing call here, the book's call in `book`, the certificates' call in `cells`, the call on price lines in `price`.
#![tactic(auto)]

pub mod book;
pub mod cells;
pub mod plain_numbers;
pub mod price;

ghost use Rattle.exports.specs.Exported.{ValuedForC};

use crate::plain_numbers::refused;
use valuation::value;

// Values a filing as `valuation::value` does: answers 0 for acceptance, else the refusal's number, with the refusal's location in `location`.
#[unsafe(no_mangle)]
pub extern "C" fn spritapricot_value(
    filing: &[u8],
    numbers: &mut [u64],
    borrowings: &mut [u64],
    location: &mut u64,
) -> u64
    ensures valued { ValuedForC filing.now numbers.old borrowings.old result location.new numbers.new borrowings.new }
{
    if let Err(refusal) = value(filing, numbers, borrowings) {
        return refused(refusal, location);
    }
    *location = 0;
    0
}
