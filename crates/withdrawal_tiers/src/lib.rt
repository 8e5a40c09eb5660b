// Tiers of annual withdrawal as they are held, with their survivals: the house's, and those of a filing.
#![tactic(auto)]

pub mod survivals;

ghost use Rattle.std.specs.Prelude.{◌≡◌};
ghost use Rattle.withdrawal.specs.Tiers.{house_tiers};
ghost use Rattle.withdrawal.specs.Inner.TierArrays.{tier_table, with_survivals, TiersFit, Usable};

use crate::survivals::{all_survivals, survival};
use form::limits::TIER_LIMIT;
use withdrawal::WithdrawalTiers;

// The house's tiers, with their survivals written out.
pub fn house() -> WithdrawalTiers
    ensures { (tier_table result ≡ house_tiers) × Usable result }
{
    let edges = [150, 130, 115, 100, 80, 50, 0, 0, 0, 0, 0, 0, 0, 0, 0, 0];
    let withdrawals = [550, 460, 320, 130, 75, 50, 0, 0, 0, 0, 0, 0, 0, 0, 0, 0];
    let survivals = [
        935_623_330,
        949_947_228,
        968_372_414,
        988_461_907,
        993_524_263,
        995_734_681,
        0,
        0,
        0,
        0,
        0,
        0,
        0,
        0,
        0,
        0,
    ];
    WithdrawalTiers {
        count: 6,
        edges,
        withdrawals,
        survivals,
        otherwise: 40,
        retained: 996_603_946,
    }
}

// Tiers with the survival of each withdrawal beside it: the table of survivals is read here, not in each month.
pub fn with_survivals(
    count: usize,
    edges: [u64; TIER_LIMIT],
    withdrawals: [u64; TIER_LIMIT],
    otherwise: u64,
) -> WithdrawalTiers
    requires { TiersFit count edges withdrawals otherwise }
    ensures { result ≡ with_survivals count edges withdrawals otherwise }
{
    let figures = all_survivals();
    let mut survivals = [0u64; TIER_LIMIT];
    for i in 0..count {
        survivals[i] = survival(&figures, withdrawals[i]);
    }
    WithdrawalTiers {
        count,
        edges,
        withdrawals,
        survivals,
        otherwise,
        retained: survival(&figures, otherwise),
    }
}
