// The search in the edges of tiers (02:CR 2): the highest edge is tried first, and the search ends at the first that is reached.
#![tactic(auto)]

ghost use Rattle.std.specs.Prelude.{◌≡◌, ◌≤◌};
ghost use Rattle.form.specs.Limits.{edge_limit};
ghost use Rattle.withdrawal.specs.Tiers.{reached};
ghost use Rattle.withdrawal.specs.Reached.{reached_tier};
ghost use Rattle.withdrawal.specs.Inner.TierArrays.{tier_table, EdgesFit, Usable};
ghost use Rattle.withdrawal.specs.Inner.Incentives.{gain_of, Small};
ghost use Rattle.withdrawal_search.specs.Search.{Searched};

use form::limits::TIER_LIMIT;
use withdrawal::{Incentive, ReachedTier, WithdrawalTiers};

// The level of the first tier that an incentive reaches, counted from 0, or the tiers' count where it reaches none, and how many edges were tried.
#[derive(Clone, Copy)]
pub struct ReachedLevel {
    pub level: usize,
    pub edges_tried: usize,
}

// The tier that an incentive reaches among given tiers.
pub fn reached_tier(tiers: &WithdrawalTiers, incentive: Incentive) -> ReachedTier
    requires { Usable tiers.now × Small incentive }
    ensures { result ≡ reached_tier (tier_table tiers.now) (gain_of incentive) incentive.cost }
{
    let found = reached_level(tiers.count, &tiers.edges, incentive);
    ReachedTier {
        withdrawal: tiers.withdrawal_at(found.level),
        survival: tiers.survival_at(found.level),
        edges_tried: found.edges_tried,
    }
}

// The search, from the highest edge on.
pub fn reached_level(count: usize, edges: &[u64; TIER_LIMIT], incentive: Incentive) -> ReachedLevel
    requires { EdgesFit count edges.now × Small incentive }
    ensures { Searched count edges.now (gain_of incentive) incentive.cost result }
{
    for level in 0..count {
        if reaches(incentive, edges[level]) {
            return ReachedLevel {
                level,
                edges_tried: level + 1,
            };
        }
    }
    ReachedLevel {
        level: count,
        edges_tried: count,
    }
}

// An edge in hundredths is reached: 100 times the gain is at least the edge times the cost.
fn reaches(incentive: Incentive, edge: u64) -> bool
    requires { Small incentive × (edge ≤ edge_limit) }
    ensures { result ≡ reached (gain_of incentive) incentive.cost edge }
{
    edge * incentive.cost + 100 * incentive.forfeited <= 100 * incentive.earned
}
