// The thirty-six sub-balances of a filing: nine positions, each as retail with penalty, retail
// without, brokered with, brokered without.
use crate::cells::{POSITIONS, Position};
use crate::records::Filing;
use crate::rounding::Rounding;

// The amounts of columns 1 to 3 stand in the three cells after these: brokered balances, balances
// subject to penalty, and penalty months.
const BROKERED: u64 = 649;

const PENALTY: u64 = 652;

const PENALTY_MONTHS: u64 = 655;

// Balance in thousands of dollars; coupon in thousandths of a percent a year; penalty in hundredths
// of a month, 0 where the sub-balance is not subject to one.
#[derive(Clone, Copy, Debug, Default, PartialEq, Eq)]
pub struct SubBalance {
    pub balance: u64,
    pub coupon: u64,
    pub months: u64,
    pub penalty: u64,
    pub column: u64,
    pub is_brokered: bool,
}

// What is taken of a column: the amount is in one cell.
#[derive(Clone, Copy)]
struct Column<'a> {
    filing: Filing<'a>,
    number: u64,
}

impl Filing<'_> {
    // The sub-balances of all places, from 0 to 35.
    pub fn sub_balances(self) -> [SubBalance; 36] {
        std::array::from_fn(|place| self.sub_balance(place))
    }

    fn sub_balance(self, place: usize) -> SubBalance {
        let k = place / 4 % 9;
        let kind = place % 4;
        let position = POSITIONS[k];
        let penalty = self.value(PENALTY_MONTHS.saturating_add(position.column));
        SubBalance {
            balance: self.share(position, k, kind),
            coupon: self.coupon(position.wac),
            months: self.value(position.warm),
            penalty: if kind % 2 == 0 { penalty } else { 0 },
            column: position.column,
            is_brokered: 2 <= kind,
        }
    }

    // The part of the k-th balance that is of a kind from 0 to 3. The balances of its column stand one
    // after the other, and in each the retail money before the brokered: the part has its share of the
    // penalty balance, or is without it, from `low` to `high`.
    fn share(self, position: Position, k: usize, kind: usize) -> u64 {
        let column = Column {
            filing: self,
            number: position.column,
        };
        let before = self.column_sum(position.column, k);
        let after = self.column_sum(position.column, k.saturating_add(1));
        let middle = after.saturating_sub(column.between(BROKERED, before, after));
        let (low, high) = if kind < 2 {
            (before, middle)
        } else {
            (middle, after)
        };
        let subject = column.between(PENALTY, low, high);
        if kind % 2 == 0 {
            subject
        } else {
            high.saturating_sub(low).saturating_sub(subject)
        }
    }
}

impl Column<'_> {
    // How much of the column's amount, in the cell that is its number after `first`, falls on the
    // thousands from `low` to `high` of its sum, each taken by its floor; 0 in an empty column.
    fn between(self, first: u64, low: u64, high: u64) -> u64 {
        let amount = self.filing.value(first.saturating_add(self.number));
        let sum = self.filing.column_sum(self.number, 9);
        let until_high = Rounding::Down.scaled(amount, high, sum);
        until_high.saturating_sub(Rounding::Down.scaled(amount, low, sum))
    }
}
