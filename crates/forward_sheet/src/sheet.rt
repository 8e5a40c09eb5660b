// The forwards of a sheet of CD yields, written into a list: by scenario, term and month, the lower first.
mod pairs;

ghost use Rattle.std.specs.Prelude.{ℕ, ◌+◌, ◌*◌, ◌≤◌, ◌<◌, ◌≡◌, length};
ghost use Rattle.form.specs.Limits.{sheet_months};
ghost use Rattle.form.specs.Shift.{scenario_count};
ghost use Rattle.filing_contents.specs.Contents.{yields_in};
ghost use Rattle.price_factors.specs.Inner.Factors.{WithinRates};
ghost use Rattle.forward_sheet.specs.Sheet.{forward_count, scenario_pairs, HoldsScenario};
ghost use Rattle.forward_sheet.specs.Inner.Runs.{Changed, Accumulated, WithinLimit, sheet_growth};

use crate::sheet::pairs::write_term;
use form::limits::{SHEET_MONTHS, SHEET_NUMBERS, YIELDS_START};
use form::sub_balances::SCENARIOS;
use form_scenarios::Scenario;
use forward_rates::figures::{UNIT, accumulated};

// The terms, the pairs of a scenario, and the numbers of all.
pub const TERMS: usize = 3;

pub const PAIRS: usize = 285;

pub const FORWARDS: usize = 2 * (PAIRS * SCENARIOS);

// Writes the pairs of each scenario, by the CD yields among the numbers of all sheets. The rest of the list is left as it was.
pub(crate) fn write_forwards(sheets: &[u16; SHEET_NUMBERS], list: &mut [i64])
    requires { WithinRates (yields_in sheets.now) × (forward_count ≤ length list.old) }
    ensures { Changed 0 forward_count list.old list.new
        × ((scenario : ℕ) → scenario < scenario_count → HoldsScenario (sheet_growth (yields_in sheets.now) scenario) (2 * (scenario_pairs * scenario)) list.new) }
{
    let numbers: &[u16] = sheets;
    let yields = &numbers[YIELDS_START..YIELDS_START + SHEET_MONTHS];
    for number in 0..SCENARIOS as u8 {
        write_scenario(yields, Scenario::new(number), list);
    }
}

// Writes the pairs of a scenario, term after term.
fn write_scenario(yields: &[u16], scenario: Scenario, list: &mut [i64])
    requires { WithinRates yields.now × (sheet_months ≤ length yields.now) × (scenario.number < scenario_count) × (forward_count ≤ length list.old) }
    ensures { Changed (2 * (scenario_pairs * scenario.number)) (2 * (scenario_pairs * (scenario.number + 1))) list.old list.new
        × HoldsScenario (sheet_growth yields.now scenario.number) (2 * (scenario_pairs * scenario.number)) list.new }
{
    let figures = figures_of(yields, scenario);
    let mut at = 2 * (PAIRS * scenario.number as usize);
    for index in 0..TERMS {
        at = write_term(&figures, index, at, list);
    }
}

// The figures of the accumulated yields of months 0 to 120 in a scenario.
fn figures_of(yields: &[u16], scenario: Scenario) -> [u64; SHEET_MONTHS + 1]
    requires { WithinRates yields.now × (sheet_months ≤ length yields.now) × (scenario.number < scenario_count) }
    ensures { Accumulated (sheet_growth yields.now scenario.number) result × WithinLimit result }
{
    let mut figures = [UNIT; SHEET_MONTHS + 1];
    for month in 0..SHEET_MONTHS {
        figures[month + 1] = accumulated(scenario.shifted(yields[month]), month as u64 + 1);
    }
    figures
}
