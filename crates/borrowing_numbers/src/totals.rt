// The totals of the borrowings, taken from their rows.
ghost use Rattle.std.specs.Prelude.{◌≡◌, ◌<◌};
ghost use Rattle.lists.specs.Sums.{sum_where, everywhere};
ghost use Rattle.lists.specs.Tables.{table, joined};
ghost use Rattle.form.specs.Borrowings.{borrowing_count};
ghost use Rattle.form.specs.Counts.{place_number_count};
ghost use Rattle.form.specs.Shift.{scenario_count};
ghost use Rattle.borrowing_numbers.specs.Inner.Rows.{WithinRows, number_at, row_totals};

use form::borrowings::BORROWINGS;
use form::sub_balances::{PLACE_NUMBERS, PLACE_VALUES};

// Lower and upper total of each scenario, in dollars.
pub(crate) fn totals_of(list: &[u64]) -> [u64; PLACE_VALUES]
    requires { WithinRows list.now }
    ensures { result ≡ joined (table scenario_count (row_totals list.now)) }
{
    std::array::from_fn(|value| total(list, 1 + value))
}

// The sum of number r of the fifteen over all borrowings.
fn total(list: &[u64], r: usize) -> u64
    requires { WithinRows list.now × (r < place_number_count) }
    ensures { result ≡ sum_where everywhere (number_at list.now r) borrowing_count }
{
    let mut sum = 0;
    for i in 0..BORROWINGS {
        sum += list[PLACE_NUMBERS * i + r];
    }
    sum
}
