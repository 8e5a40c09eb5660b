// A standing book (02:CR 7): thirty-six places under a filing's sheets and tiers, set or cleared one at a time, with kept totals.
#![tactic(auto)]

pub mod book_changes;

ghost use Rattle.std.specs.Prelude.{◌≡◌, length};
ghost use Rattle.form.specs.Limits.{months_limit, rate_count};
ghost use Rattle.filing_contents.specs.Contents.{yields_in, rates_in};
ghost use Rattle.pricing.specs.Rounding.{down, up};
ghost use Rattle.price_factors.specs.Inner.Factors.{factors_by, WithinRates};
ghost use Rattle.book_state.specs.BookPlaces.{empty_under};
ghost use Rattle.book_promise.specs.Changes.{set_place, clear_place};
ghost use Rattle.book_promise.specs.Promise.{OpenedOf, ChangedOf};

use answers::Refusal;
use book_limits::fits;
use book_state::{Book, empty_book, put_place};
use book_values::values_in;
use filing::read;
use filing_contents::FiledTiers;
use form::CELLS;
use form::limits::{MONTHS_LIMIT, RATES, RATES_START, SHEET_MONTHS, SHEET_NUMBERS, YIELDS_START};
use form::sub_balances::{NO_PLACE, PLACE_VALUES, SUB_BALANCES, SubBalance};
use price_deposits::RatePaths;
use price_factors::{FACTORS, fill_factors};
use pricing::Bounds;

// Opens an empty book under the sheets and tiers of a filing. A refused filing is refused as `read` refuses it.
pub fn open(filing: &[u8]) -> Result<Book, Refusal>
    ensures opened { OpenedOf filing.now result }
{
    let mut cells = [0; CELLS];
    let mut sheets = [0; SHEET_NUMBERS];
    let reading = read(filing, &mut cells, &mut sheets)?;
    Ok(book_under(&sheets, reading.tiers))
}

// An empty book under the numbers of a filing's sheets, and tiers.
fn book_under(sheets: &[u16; SHEET_NUMBERS], tiers: FiledTiers) -> Book
    requires { WithinRates (yields_in sheets.now) }
    ensures { result ≡ empty_under (rates_in sheets.now) tiers (record { lower = factors_by down (yields_in sheets.now) months_limit; upper = factors_by up (yields_in sheets.now) months_limit }) }
{
    let numbers: &[u16] = sheets;
    let yields = &numbers[YIELDS_START..YIELDS_START + SHEET_MONTHS];
    let rates = held_rates(&numbers[RATES_START..RATES_START + RATES]);
    let mut factors = Bounds {
        lower: [0; FACTORS],
        upper: [0; FACTORS],
    };
    fill_factors(yields, MONTHS_LIMIT, &mut factors.lower, &mut factors.upper);
    empty_book(rates, tiers, factors)
}

// A part with as many numbers as there are retail rates, as the book keeps them.
fn held_rates(part: &[u16]) -> RatePaths
    requires { length part.now ≡ rate_count }
    ensures { result ≡ part.now }
{
    let mut rates = [0; RATES];
    rates.copy_from_slice(part);
    rates
}

// Sets a place of the book: balance in thousands of dollars, coupon in thousandths of a percent a year, remaining months, penalty in hundredths of a month. The
// place is valued and the totals move by the difference; a refusal alters nothing.
pub fn set(
    book: &mut Book,
    place: usize,
    balance: u64,
    coupon: u64,
    months: u64,
    penalty: u64,
) -> Result<(), Refusal>
    ensures changed { ChangedOf book.old (set_place place balance coupon months penalty) result book.new }
{
    if !fits(place, balance, coupon, months, penalty) {
        return Err(Refusal::OutsidePlaceLimits(place));
    }
    let held = SubBalance {
        balance,
        coupon,
        remaining_months: months,
        penalty,
        values: [0; PLACE_VALUES],
    };
    let tiers = book.tiers;
    let values = values_in(held, place, &book.rates, tiers, &book.factors);
    let valued = SubBalance {
        balance,
        coupon,
        remaining_months: months,
        penalty,
        values,
    };
    put_place(book, place, valued);
    Ok(())
}

// Clears a place of the book to all 0. A place above 35 is refused, and alters nothing.
pub fn clear(book: &mut Book, place: usize) -> Result<(), Refusal>
    ensures changed { ChangedOf book.old (clear_place place) result book.new }
{
    if SUB_BALANCES <= place {
        return Err(Refusal::OutsidePlaceLimits(place));
    }
    put_place(book, place, NO_PLACE);
    Ok(())
}
