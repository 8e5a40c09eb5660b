// The 126 numbers of the intangible (02:CR 9): nine cells ascending, scenario by scenario, lower then upper, in millionths of the opening balance.
#![tactic(auto)]

mod cells;
mod factors;
mod signed;

ghost use Rattle.std.specs.Prelude.{◌≡◌, ◌++◌, ◌≤◌, length, drop};
ghost use Rattle.withdrawal.specs.Inner.TierArrays.{tier_table};
ghost use Rattle.price_deposits.specs.Inner.Levels.{TiersLent, lent_tiers};
ghost use Rattle.intangible_numbers.specs.Numbers.{numbers, intangible_count};
ghost use Rattle.intangible_numbers.specs.Inner.Limits.{RollingCells, RollingLimits, sheets_of};

use crate::cells::cell_numbers;
use crate::factors::fill_long;
use crate::signed::write_signed;
use form::CELLS;
use form::sub_balances::PLACE_VALUES;
use intangible_walk::{LONG_FACTORS, Market};
use pricing::Bounds;
use withdrawal::WithdrawalTiers;

// The nine cells with a balance.
const POSITIONS: usize = 9;

// Writes the numbers, from the cells of a filing, its CD yields of months 1 to 120 and 121 to 360, its retail rates by column and month, none of them shifted,
// its rollover shares by column, and its tiers. The rest of the list is left as it was.
pub fn write_intangible(
    cells: &[u64; CELLS],
    yields: &[u16],
    long: &[u16],
    rates: &[u16],
    shares: &[u16],
    tiers: &WithdrawalTiers,
    list: &mut [i64],
)
    requires rolling_cells { RollingCells cells.now × RollingLimits yields.now long.now rates.now shares.now }
    requires tiers_lent { TiersLent tiers.now.count tiers.now.edges tiers.now.survivals tiers.now.retained × (intangible_count ≤ length list.old) }
    ensures { (t : TiersLent tiers.now.count tiers.now.edges tiers.now.survivals tiers.now.retained) → list.new
        ≡ numbers cells.now (sheets_of yields.now long.now rates.now shares.now (tier_table (lent_tiers t)))
        ++ drop intangible_count list.old }
{
    let mut factors = Bounds {
        lower: [0; LONG_FACTORS],
        upper: [0; LONG_FACTORS],
    };
    fill_long(yields, long, &mut factors);
    let market = Market {
        rates,
        tiers,
        factors: &factors,
    };
    for i in 0..POSITIONS {
        let fourteen = cell_numbers(cells, i, shares, &market);
        write_signed(list, PLACE_VALUES * i, &fourteen);
    }
}
