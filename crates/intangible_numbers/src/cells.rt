// The numbers of one cell: lower and upper in each scenario.
ghost use Rattle.std.specs.Prelude.{◌≡◌, ◌≤◌, ◌<◌, length};
ghost use Rattle.price_factors.specs.Inner.Factors.{AtMostPar};
ghost use Rattle.price_deposits.specs.Inner.Levels.{TiersLent};
ghost use Rattle.intangible_numbers.specs.Sheets.{rollover_months};
ghost use Rattle.intangible_numbers.specs.Inner.Limits.{RollingCells, RollingCell, WithinShares, RatesFit, position_count, retail_cell, lent_numbers, cell_numbers_by};

use crate::signed::write_signed;
use filing_cells::column_sums::cells::cell_value;
use form::positions::position;
use form::sub_balances::{PLACE_VALUES, SCENARIOS};
use form::{CELLS, Position};
use intangible_cells::scenarios::intangible_in;
use intangible_months::RetailCell;
use intangible_walk::Market;

// The fourteen numbers of the cell at an index, 0 to 8: all 0 where it has no balance.
pub(crate) fn cell_numbers<'a>(
    cells: &[u64; CELLS],
    i: usize,
    shares: &[u16],
    market: &Market<'a>,
) -> [i64; PLACE_VALUES]
    requires rolling_cells { RollingCells cells.now × (i < position_count) × RatesFit market.now.rates.now × WithinShares shares.now }
    requires tiers_lent { TiersLent market.now.tiers.now.count market.now.tiers.now.edges market.now.tiers.now.survivals market.now.tiers.now.retained × AtMostPar market.now.factors.now.lower × AtMostPar market.now.factors.now.upper }
    ensures { result ≡ cell_numbers_by cells.now i market.now.rates.now shares.now market.now.tiers.now market.now.factors.now.lower market.now.factors.now.upper }
{
    let p = position(i);
    if cell_value(cells, p.balance) == 0 {
        return [0; PLACE_VALUES];
    }
    let cell = retail_cell(cells, p, shares);
    intangible_of(cell, market)
}

// Lower and upper intangible of a cell in each of the seven scenarios.
pub(crate) fn intangible_of<'a>(cell: RetailCell, market: &Market<'a>) -> [i64; PLACE_VALUES]
    requires { RollingCell cell × RatesFit market.now.rates.now × TiersLent market.now.tiers.now.count market.now.tiers.now.edges market.now.tiers.now.survivals market.now.tiers.now.retained × AtMostPar market.now.factors.now.lower × AtMostPar market.now.factors.now.upper }
    ensures { result ≡ lent_numbers cell market.now.rates.now market.now.tiers.now market.now.factors.now.lower market.now.factors.now.upper }
{
    let mut numbers = [0; PLACE_VALUES];
    for scenario in 0..SCENARIOS {
        let two = intangible_in(cell, scenario, market);
        write_signed(&mut numbers, 2 * scenario, &two);
    }
    numbers
}

// The cell at a position, with its column's share and terms.
fn retail_cell(cells: &[u64; CELLS], p: Position, shares: &[u16]) -> RetailCell
    requires { (1 ≤ p.column) × (p.column ≤ 3) × (3 ≤ length shares.now) }
    ensures { result ≡ retail_cell cells.now shares.now p }
{
    let column = p.column;
    RetailCell {
        coupon: cell_value(cells, p.coupon),
        months: cell_value(cells, p.months),
        column,
        term: rollover_months(column),
        share: u64::from(shares[column - 1]),
    }
}

// The months of a term that a rollover opens in a column (003, Table 6.A.2).
fn rollover_months(column: usize) -> u64
    requires { (1 ≤ column) × (column ≤ 3) }
    ensures { result ≡ rollover_months column }
{
    match column {
        1 => 6,
        2 => 24,
        _ => 48,
    }
}
