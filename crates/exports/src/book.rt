// The book's call.
ghost use Rattle.exports.specs.Changed.{BookForC};

use crate::plain_numbers::{refused, shown};
use book_calls::book_changes::book_of;

// Opens a book from a filing and makes changes in turn as `book_calls::book_changes::book_of` does: answers 0 for acceptance, else the first refusal's number, with its
// location in `location`; the balance total and the twenty-eight totals of the book in `totals`; how many changes were made in `changed`.
#[unsafe(no_mangle)]
pub extern "C" fn spritapricot_book(
    filing: &[u8],
    changes: &[u64],
    totals: &mut [u64; 29],
    location: &mut u64,
    changed: &mut u64,
) -> u64
    ensures changed { BookForC filing.now changes.now totals.old result location.new changed.new totals.new }
{
    match book_of(filing, changes) {
        Ok(done) => {
            *location = 0;
            *changed = done.made as u64;
            *totals = shown(done.book.balance, &done.book.totals);
            0
        }
        Err(not_made) => {
            *changed = not_made.made as u64;
            refused(not_made.refusal, location)
        }
    }
}
