// How much of a balance stays on in a month that is not the last, from the gain of withdrawing and
// its cost, n months before maturity. Coupon c in thousandths, penalty p and shifted retail rate r as
// in the filing. What the gain takes off stands apart, so that no figure is negative.
use crate::pricing::Valuation;
use crate::shares::SubBalance;
use crate::tiers::Tiers;

pub const WHOLE: u64 = 1000000000;

// What is earned by withdrawing, what is lost, and the cost.
#[derive(Clone, Copy, Debug)]
pub struct Gain {
    pub earned: u64,
    pub lost: u64,
    pub cost: u64,
}

impl Gain {
    // The gain is (120,000,000 - c × p) × r × n less 120,000 × c × p, the cost 12,000,000 × c × n.
    fn of(part: SubBalance, r: u64, n: u64) -> Gain {
        let penalty = part.coupon.saturating_mul(part.penalty);
        let free: u64 = 120000000;
        Gain {
            earned: free
                .saturating_sub(penalty)
                .saturating_mul(r.saturating_mul(n)),
            lost: penalty.saturating_mul(120000),
            cost: part.coupon.saturating_mul(n).saturating_mul(12000000),
        }
    }

    // Whether the gain is above the cost.
    fn is_above_cost(self) -> bool {
        self.cost.saturating_add(self.lost) < self.earned
    }

    // Whether the gain reaches an edge, in hundredths of the cost.
    fn reaches(self, edge: u64) -> bool {
        let needed = self
            .lost
            .saturating_mul(100)
            .saturating_add(edge.saturating_mul(self.cost));
        needed <= self.earned.saturating_mul(100)
    }
}

// The annual withdrawal of a tier, and the number of edges at or above the tier.
#[derive(Clone, Copy, Debug)]
pub struct Reached {
    pub withdrawal: u64,
    pub edges: usize,
}

impl Tiers<'_> {
    // The highest tier whose edge a gain reaches, the lowest where it reaches none. The house's lowest
    // tier has no edge.
    pub fn reached(self, gain: Gain) -> Reached {
        let count = self.count();
        let tier = (0..count)
            .rev()
            .find(|k| gain.reaches(self.tier(*k).edge))
            .unwrap_or(0);
        let edges = count.saturating_sub(tier);
        Reached {
            withdrawal: self.tier(tier).withdrawal,
            edges: match self {
                Tiers::Own(_) => edges,
                Tiers::House => edges.min(6),
            },
        }
    }
}

impl Valuation<'_> {
    // The survival q of a tier's annual withdrawal.
    pub fn survival(self, withdrawal: u64) -> u64 {
        self.survivals
            .get(withdrawal as usize)
            .copied()
            .unwrap_or(0)
    }

    // The survival q, in parts of 10^9, of a month with n months after it. Brokered money is withdrawn
    // where the gain is above the cost, and no money in the last month, where nothing is earned.
    pub fn month_survival(self, part: SubBalance, r: u64, n: u64) -> u64 {
        let gain = Gain::of(part, r, n);
        if part.is_brokered || n == 0 {
            if gain.is_above_cost() { 0 } else { WHOLE }
        } else {
            let reached = Tiers::of(self.filing).reached(gain);
            self.survival(reached.withdrawal)
        }
    }
}
