// The totals of the scenarios, taken from the rows of the places.
ghost use Rattle.std.specs.Prelude.{◌≡◌, ◌+◌, ◌≤◌, ◌<◌};
ghost use Rattle.lists.specs.Sums.{sum};
ghost use Rattle.lists.specs.Tables.{table_from, table, joined};
ghost use Rattle.form.specs.Shift.{scenario_count};
ghost use Rattle.form.specs.PlaceOrder.{sub_balance_count};
ghost use Rattle.form.specs.Counts.{place_number_count};
ghost use Rattle.value_places.specs.RowTotals.{WithinRows, number_at, row_totals};

use form::sub_balances::{PLACE_NUMBERS, SCENARIOS, TOTALS};
use lists::write;

// Four totals for each scenario, in dollars: short lower, short upper, long lower, long upper.
pub fn totals_of(list: &[u64]) -> [u64; TOTALS]
    requires { WithinRows list.now }
    ensures { result ≡ joined (table scenario_count (row_totals list.now)) }
{
    let mut totals = [0u64; TOTALS];
    for scenario in 0..SCENARIOS {
        let four = scenario_totals(list, scenario);
        write(&mut totals, 4 * scenario, &four);
    }
    totals
}

// The totals of a scenario: rows 1 and 2 are places 0 to 23, rows 3 and 4 places 24 to 35.
fn scenario_totals(list: &[u64], scenario: usize) -> [u64; 4]
    requires { WithinRows list.now × (scenario < scenario_count) }
    ensures { result ≡ row_totals list.now scenario }
{
    let lower = 2 * scenario + 1;
    let upper = 2 * scenario + 2;
    [
        total(list, lower, 0, 24),
        total(list, upper, 0, 24),
        total(list, lower, 24, 12),
        total(list, upper, 24, 12),
    ]
}

// The sum of number r of the fifteen over `count` places from `first` on.
fn total(list: &[u64], r: usize, first: usize, count: usize) -> u64
    requires { WithinRows list.now × (r < place_number_count) × (first + count ≤ sub_balance_count) }
    ensures { result ≡ sum (table_from first count (number_at list.now r)) }
{
    let mut sum: u64 = 0;
    for i in 0..count {
        sum += list[PLACE_NUMBERS * (first + i) + r];
    }
    sum
}
