// The totals of a book, moved by the difference of a place's values.
#![tactic(auto)]

ghost use Rattle.std.specs.Prelude.{◌≡◌, ◌<◌};
ghost use Rattle.form.specs.Counts.{total_count};
ghost use Rattle.book_totals.specs.KeptTotals as kept;
ghost use Rattle.book_totals.specs.KeptTotals.{sums_place, total_after, totals_after};

use form::positions::position;
use form::sub_balances::{PLACE_VALUES, TOTALS};

// The twenty-eight totals after the values of a place changed: the short or the long ones move, by the row of the place.
pub fn totals_after(
    totals: &[u64; TOTALS],
    place: usize,
    old: &[u64; PLACE_VALUES],
    new: &[u64; PLACE_VALUES],
) -> [u64; TOTALS]
    ensures { result ≡ totals_after totals.now place old.now new.now }
{
    std::array::from_fn(|i| total_after(totals[i], place, old, new, i))
}

// Total i of the twenty-eight: short lower, short upper, long lower, long upper by scenario.
fn total_after(
    total: u64,
    place: usize,
    old: &[u64; PLACE_VALUES],
    new: &[u64; PLACE_VALUES],
    i: usize,
) -> u64
    requires { i < total_count }
    ensures { result ≡ total_after total place old.now new.now i }
{
    if !sums_place(i, place) {
        return total;
    }
    let v = 2 * (i / 4) + i % 2;
    moved(total, old[v], new[v])
}

// Total i sums the place: the first two of each four sum rows 1 and 2, the others rows 3 and 4.
fn sums_place(i: usize, place: usize) -> bool
    ensures { result ≡ sums_place i place }
{
    let short = position(place / 4).row <= 2;
    if 2 <= i % 4 { !short } else { short }
}

// A total that loses the old figure and gains the new one. It never falls below 0 nor rises above 2^64 - 1; in a book kept by its calls neither
// limit is met.
pub fn moved(total: u64, old: u64, new: u64) -> u64
    ensures { result ≡ kept.moved total old new }
{
    total.saturating_sub(old).saturating_add(new)
}
