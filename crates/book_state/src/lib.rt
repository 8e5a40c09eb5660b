// A standing book (02:CR 7): its thirty-six places under a filing's sheets and tiers, empty, and with something else at one place.
#![tactic(auto)]

ghost use Rattle.std.specs.Prelude.{◌≡◌, ◌<◌};
ghost use Rattle.form.specs.PlaceOrder.{sub_balance_count};
ghost use Rattle.book_state.specs.BookPlaces.{empty_under, with_place};

use book_totals::{moved, totals_after};
use filing_contents::FiledTiers;
use form::sub_balances::{NO_PLACE, SUB_BALANCES, SubBalance, TOTALS};
use price_deposits::RatePaths;
use price_factors::FactorTable;
use pricing::Bounds;

// The thirty-six places, the sum of their balances in thousands of dollars, and the totals in dollars: short lower, short upper, long lower and long
// upper by scenario. Then the filing that the book was opened from: its retail rates in hundredths of a percent a year, its tiers, and the lower and
// the upper discount factors of its CD yields.
#[derive(Clone, Copy)]
pub struct Book {
    pub places: [SubBalance; SUB_BALANCES],
    pub balance: u64,
    pub totals: [u64; TOTALS],
    pub rates: RatePaths,
    pub tiers: FiledTiers,
    pub factors: Bounds<FactorTable>,
}

// An empty book under rates, tiers and discount factors.
pub fn empty_book(rates: RatePaths, tiers: FiledTiers, factors: Bounds<FactorTable>) -> Book
    ensures { result ≡ empty_under rates tiers factors }
{
    Book {
        places: [NO_PLACE; SUB_BALANCES],
        balance: 0,
        totals: [0; TOTALS],
        rates,
        tiers,
        factors,
    }
}

// Puts something else at a place of the book: the totals lose what the old values had and gain the new ones.
pub fn put_place(book: &mut Book, place: usize, held: SubBalance)
    requires { place < sub_balance_count }
    ensures { book.new ≡ with_place book.old place held }
{
    let old = book.places[place];
    let totals = totals_after(&book.totals, place, &old.values, &held.values);
    book.balance = moved(book.balance, old.balance, held.balance);
    book.totals = totals;
    book.places[place] = held;
}
