// The tiers of annual withdrawals, lowest edge first: those of the filing's record of kind 4, or the
// house's where it has none. The record has the number of its tiers after the kind, and each tier's
// edge in hundredths and annual withdrawal in thousandths.
use crate::records::{Filing, Kind, Record};

#[derive(Clone, Copy, Debug)]
pub struct Tier {
    pub edge: u64,
    pub withdrawal: u64,
}

// The house's tiers: the edge 0 stands for every ratio below 50.
const HOUSE: [Tier; 7] = [
    Tier {
        edge: 0,
        withdrawal: 40,
    },
    Tier {
        edge: 50,
        withdrawal: 50,
    },
    Tier {
        edge: 80,
        withdrawal: 75,
    },
    Tier {
        edge: 100,
        withdrawal: 130,
    },
    Tier {
        edge: 115,
        withdrawal: 320,
    },
    Tier {
        edge: 130,
        withdrawal: 460,
    },
    Tier {
        edge: 150,
        withdrawal: 550,
    },
];

// The tiers that a filing's own money is withdrawn by.
#[derive(Clone, Copy)]
pub enum Tiers<'a> {
    Own(Record<'a>),
    House,
}

impl<'a> Tiers<'a> {
    pub fn of(filing: Filing<'a>) -> Tiers<'a> {
        match filing.sheet(Kind::Tiers) {
            Some(record) => Tiers::Own(record),
            None => Tiers::House,
        }
    }

    pub fn count(self) -> usize {
        match self {
            Tiers::Own(record) => record.number(4, 2) as usize,
            Tiers::House => HOUSE.len(),
        }
    }

    // Tier k, from 0 on; the house's begin anew past the last.
    pub fn tier(self, k: usize) -> Tier {
        match self {
            Tiers::Own(record) => {
                let at = k.saturating_mul(4).saturating_add(6);
                Tier {
                    edge: record.number(at, 2),
                    withdrawal: record.number(at.saturating_add(2), 2),
                }
            }
            Tiers::House => HOUSE[k % 7],
        }
    }

    // Whether there are 1 to 16 tiers, the first edge is 0, no tier withdraws over 600, and each is above
    // the tier before it.
    pub fn are_in_order(self) -> bool {
        let count = self.count();
        1 <= count
            && count <= 16
            && self.tier(0).edge == 0
            && (0..count).all(|k| self.tier(k).withdrawal <= 600)
            && (0..count)
                .zip(1..count)
                .all(|(before, k)| self.tier(before).is_below(self.tier(k)))
    }
}

impl Tier {
    // Whether another tier has a higher edge, and no lower withdrawal.
    fn is_below(self, other: Tier) -> bool {
        self.edge < other.edge && self.withdrawal <= other.withdrawal
    }
}
