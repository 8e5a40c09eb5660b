// Early withdrawal of certificate deposits (01:49-53), with its definitions and their laws, and what stands at a level of its tiers.
#![tactic(auto)]

ghost use Rattle.std.specs.Prelude.{◌≡◌, ◌≤◌};
ghost use Rattle.form.specs.Limits.{tier_limit};
ghost use Rattle.withdrawal.specs.Inner.TierArrays.{withdrawal_at, survival_at};

use form::limits::TIER_LIMIT;

// q where nothing is withdrawn, in billionths.
pub const FULL_SURVIVAL: u64 = 1_000_000_000;

// Tiers of annual withdrawal, in the first `count` entries, highest edge first: edges in hundredths, withdrawals in thousandths, and the survival
// of each withdrawal in billionths; the entries past these are 0. Where no edge is reached the withdrawal is `otherwise` and its survival
// `retained`.
#[derive(Clone, Copy)]
pub struct WithdrawalTiers {
    pub edges: [u64; TIER_LIMIT],
    pub withdrawals: [u64; TIER_LIMIT],
    pub survivals: [u64; TIER_LIMIT],
    pub count: usize,
    pub otherwise: u64,
    pub retained: u64,
}

impl WithdrawalTiers {
    // The annual withdrawal at a level: that of its tier, or past the last that where no edge is reached.
    pub fn withdrawal_at(&self, level: usize) -> u64
        requires { self.now.count ≤ tier_limit }
        ensures { result ≡ withdrawal_at self.now level }
    {
        if level < self.count {
            self.withdrawals[level]
        } else {
            self.otherwise
        }
    }

    // What survives a month at a level, in billionths.
    pub fn survival_at(&self, level: usize) -> u64
        requires { self.now.count ≤ tier_limit }
        ensures { result ≡ survival_at self.now level }
    {
        if level < self.count {
            self.survivals[level]
        } else {
            self.retained
        }
    }
}

// What a coupon and a penalty make of an incentive, whatever the month: the gain's share that is earned at a rate of one in a month, what is forfeited, and
// the cost of a month.
#[derive(Clone, Copy)]
pub struct CouponParts {
    pub share: u64,
    pub forfeited: u64,
    pub cost: u64,
}

// The incentive to withdraw early: a gain of `earned` less `forfeited`, and the cost, on one scale.
#[derive(Clone, Copy)]
pub struct Incentive {
    pub earned: u64,
    pub forfeited: u64,
    pub cost: u64,
}

// The tier that an incentive reaches: its annual withdrawal in thousandths, the survival of that in billionths, and how many edges were tried.
#[derive(Clone, Copy)]
pub struct ReachedTier {
    pub withdrawal: u64,
    pub survival: u64,
    pub edges_tried: usize,
}
