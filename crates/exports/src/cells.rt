// The certificates' call.
ghost use Rattle.exports.specs.Converted.{ConvertedForC};

use crate::plain_numbers::{cell_numbers, refused};
use certificate_calendar::Date;
use certificates::to_cells;

// Turns certificates into cells as `certificates::to_cells` does: answers 0 for acceptance, else the refusal's number, with the refusal's location in `location`;
// how many cells there are in `count`, and the number and value of each in `cells`.
#[unsafe(no_mangle)]
pub extern "C" fn spritapricot_cells(
    year: u64,
    month: u64,
    day: u64,
    certificates: &[u64],
    cells: &mut [u64; 56],
    count: &mut u64,
    location: &mut u64,
) -> u64
    ensures converted { ConvertedForC (record { year = year; month = month; day = day }) certificates.now cells.old result location.new count.new cells.new }
{
    match to_cells(Date { year, month, day }, certificates) {
        Ok(filled) => {
            *location = 0;
            *count = filled.count as u64;
            *cells = cell_numbers(filled.as_slice());
            0
        }
        Err(refusal) => {
            *count = 0;
            refused(refusal, location)
        }
    }
}
