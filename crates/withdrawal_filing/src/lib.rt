// The withdrawal tiers of a filing.
#![tactic(auto)]

pub mod tier_search;

ghost use Rattle.std.specs.Prelude.{◌≡◌, ℕ, ◌-◌, ◌≤◌, get_or};
ghost use Rattle.lists.specs.Tables.{table};
ghost use Rattle.form.specs.Limits.{tier_limit, edge_limit};
ghost use Rattle.withdrawal.specs.Inner.TierArrays.{tier_array, tier_table, Usable};
ghost use Rattle.withdrawal_filing.specs.FilingTiers.{tiers_of};
ghost use Rattle.withdrawal_filing.specs.Inner.FiledLimits.{FiledLimits};

use filing_contents::FiledTiers;
use form::limits::TIER_LIMIT;
use withdrawal::WithdrawalTiers;
use withdrawal_tiers::{house, with_survivals};

// Its own tiers, highest edge first, or the house's where it has none.
pub fn tiers_of(filed: FiledTiers) -> WithdrawalTiers
    requires { FiledLimits filed }
    ensures { (tier_table result ≡ tiers_of filed) × Usable result }
{
    let count = filed.count;
    if count == 0 {
        return house();
    }
    let edges = from_the_top(count, &filed.edges);
    let withdrawals = from_the_top(count, &filed.withdrawals);
    let lowest = u64::from(filed.withdrawals[0]);
    with_survivals(count, edges, withdrawals, lowest)
}

// The first `count` numbers, the last of them first, and 0s behind them.
fn from_the_top(count: usize, numbers: &[u16; TIER_LIMIT]) -> [u64; TIER_LIMIT]
    requires { count ≤ tier_limit }
    ensures { (result ≡ tier_array (table count (λ i. get_or numbers.now (count - 1 - i) 0))) × ((i : ℕ) → get_or result i 0 ≤ edge_limit) }
{
    let mut turned = [0u64; TIER_LIMIT];
    for i in 0..count {
        turned[i] = u64::from(numbers[count - 1 - i]);
    }
    turned
}
