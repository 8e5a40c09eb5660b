// The cells of Schedule CMR that the valuation reads: the limit of each; and of certificates the nine
// positions.

// One of the nine positions: the cell of its balance, its WAC (coupon) and its WARM (remaining
// months), its column, and the months of its row.
#[derive(Clone, Copy, Debug)]
pub struct Position {
    pub balance: u64,
    pub wac: u64,
    pub warm: u64,
    pub column: u64,
    first: u64,
    last: u64,
}

// The nine, from left to right in each row.
pub const POSITIONS: [Position; 9] = [
    Position {
        balance: 601,
        wac: 605,
        warm: 608,
        column: 1,
        first: 1,
        last: 3,
    },
    Position {
        balance: 602,
        wac: 606,
        warm: 609,
        column: 2,
        first: 1,
        last: 3,
    },
    Position {
        balance: 603,
        wac: 607,
        warm: 610,
        column: 3,
        first: 1,
        last: 3,
    },
    Position {
        balance: 615,
        wac: 619,
        warm: 622,
        column: 1,
        first: 4,
        last: 12,
    },
    Position {
        balance: 616,
        wac: 620,
        warm: 623,
        column: 2,
        first: 4,
        last: 12,
    },
    Position {
        balance: 617,
        wac: 621,
        warm: 624,
        column: 3,
        first: 4,
        last: 12,
    },
    Position {
        balance: 631,
        wac: 634,
        warm: 636,
        column: 2,
        first: 13,
        last: 36,
    },
    Position {
        balance: 632,
        wac: 635,
        warm: 637,
        column: 3,
        first: 13,
        last: 36,
    },
    Position {
        balance: 641,
        wac: 643,
        warm: 644,
        column: 3,
        first: 37,
        last: 120,
    },
];

impl Position {
    // Whether months are within the position's row.
    pub fn is_of_row(&self, months: u64) -> bool {
        (self.first..=self.last).contains(&months)
    }
}

// The cell of the total.
pub const TOTAL: u64 = 645;

// The cell of the borrowings' total.
pub const BORROWED: u64 = 715;

pub const MOST_BALANCE: u64 = 999999999;

pub const MOST_COUPON: u64 = 1500;

pub const MOST_MONTHS: u64 = 120;

// What a cell of a filing holds: among others the brokered or penalty share of a column, and any value
// where the cell is not used.
#[derive(Clone, Copy, Debug, PartialEq, Eq)]
enum Class {
    Balance,
    Coupon,
    BorrowedCoupon,
    Months,
    Total,
    BorrowedTotal,
    Share,
    Penalty,
    Unused,
}

impl Class {
    // The class of a cell that a filing may have.
    fn of(cell: u64) -> Option<Class> {
        match cell {
            601..=603 | 615..=617 | 631..=632 | 641 => Some(Class::Balance),
            605..=607 | 619..=621 | 634..=635 | 643 => Some(Class::Coupon),
            608..=610 | 622..=624 | 636..=637 | 644 => Some(Class::Months),
            604 | 618 | 633 | 642 | 659..=661 => Some(Class::Unused),
            TOTAL => Some(Class::Total),
            650..=655 => Some(Class::Share),
            656..=658 => Some(Class::Penalty),
            678 | 682 | 686 | 690 | 694 | 698 | 702 | 706 => Some(Class::BorrowedCoupon),
            675..=705 => Some(Class::Balance),
            711..=713 => Some(Class::Months),
            BORROWED => Some(Class::BorrowedTotal),
            _ => None,
        }
    }
}

// The largest value that a filing may have in a cell; nothing for a cell that it may not have.
pub fn limit(cell: u64) -> Option<u64> {
    let most = match Class::of(cell)? {
        Class::Balance => MOST_BALANCE,
        Class::Coupon | Class::BorrowedCoupon => MOST_COUPON,
        Class::Months => MOST_MONTHS,
        Class::Total => 8999999991,
        Class::BorrowedTotal => 23999999976,
        Class::Share => 3999999996,
        Class::Penalty => 3600,
        Class::Unused => u64::MAX,
    };
    Some(most)
}

// The largest coupon in thousandths of a percent; nothing for a cell that has no such coupon.
pub fn fine_limit(cell: u64) -> Option<u64> {
    match Class::of(cell)? {
        Class::Coupon => Some(15000),
        _ => None,
    }
}
