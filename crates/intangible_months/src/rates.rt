// The retail rate of a month.
ghost use Rattle.std.specs.Prelude.{◌≡◌, ◌≤◌, ◌<◌, min};
ghost use Rattle.form.specs.Limits.{rate_limit, sheet_months};
ghost use Rattle.form.specs.Shift.{scenario_count, shifted_limit, path_rate};
ghost use Rattle.price_deposits.specs.Inner.Prices.{ColumnRates};
ghost use Rattle.intangible_months.specs.Rates.{rolling_rate};

use form::limits::SHEET_MONTHS;
use form_scenarios::Scenario;

// The retail rate of a column in a month, from 1 on, in a scenario, in hundredths of a percent a year, from rates that are not shifted.
pub fn rate_in(rates: &[u16], column: usize, scenario: usize, month: u64) -> u64
    requires { ColumnRates rates.now column × (scenario < scenario_count) × (0 < month) }
    ensures { (result ≡ rolling_rate rates.now column scenario month) × (result ≤ shifted_limit) }
{
    Scenario::new(scenario as u8).shifted(lasting_rate(rates, column, month))
}

// The rate of a column in a month, not shifted: month 120's lasts onward.
fn lasting_rate(rates: &[u16], column: usize, month: u64) -> u16
    requires { ColumnRates rates.now column × (0 < month) }
    ensures { (result ≡ path_rate rates.now column (min month sheet_months)) × (result ≤ rate_limit) }
{
    let last = month.min(SHEET_MONTHS as u64) as usize;
    rates[SHEET_MONTHS * (column - 1) + (last - 1)]
}
