// The borrowings of a filing: twenty-four balances, in eight coupon classes of three terms each. A
// class has one WAC (coupon), in hundredths of a percent a year, and a term one WARM (months).
use crate::records::Filing;

// A class or a term: the cells of its balances, the cell of its coupon or of its months, and the
// least and the most that it holds there.
#[derive(Clone, Copy)]
pub struct Group<const N: usize> {
    balances: [u64; N],
    pub cell: u64,
    least: u64,
    most: u64,
}

impl<const N: usize> Group<N> {
    // Whether a filing has a balance in the group.
    pub fn is_used(&self, filing: Filing) -> bool {
        self.balances.iter().any(|cell| filing.value(*cell) != 0)
    }

    // Whether a coupon or months are within the group.
    pub fn holds(&self, value: u64) -> bool {
        (self.least..=self.most).contains(&value)
    }
}

// A class has one balance a term.
pub const CLASSES: [Group<3>; 8] = [
    Group {
        balances: [675, 676, 677],
        cell: 678,
        least: 0,
        most: 499,
    },
    Group {
        balances: [679, 680, 681],
        cell: 682,
        least: 500,
        most: 599,
    },
    Group {
        balances: [683, 684, 685],
        cell: 686,
        least: 600,
        most: 699,
    },
    Group {
        balances: [687, 688, 689],
        cell: 690,
        least: 700,
        most: 799,
    },
    Group {
        balances: [691, 692, 693],
        cell: 694,
        least: 800,
        most: 899,
    },
    Group {
        balances: [695, 696, 697],
        cell: 698,
        least: 900,
        most: 999,
    },
    Group {
        balances: [699, 700, 701],
        cell: 702,
        least: 1000,
        most: 1099,
    },
    Group {
        balances: [703, 704, 705],
        cell: 706,
        least: 1100,
        most: 1500,
    },
];

// A term has one balance a class.
pub const TERMS: [Group<8>; 3] = [
    Group {
        balances: [675, 679, 683, 687, 691, 695, 699, 703],
        cell: 711,
        least: 1,
        most: 3,
    },
    Group {
        balances: [676, 680, 684, 688, 692, 696, 700, 704],
        cell: 712,
        least: 4,
        most: 36,
    },
    Group {
        balances: [677, 681, 685, 689, 693, 697, 701, 705],
        cell: 713,
        least: 37,
        most: 120,
    },
];

#[derive(Clone, Copy, Debug)]
pub struct Borrowing {
    pub balance: u64,
    pub coupon: u64,
    pub months: u64,
}

impl Filing<'_> {
    // The twenty-four, by ascending cell.
    pub fn borrowings(self) -> [Borrowing; 24] {
        std::array::from_fn(|k| {
            let class = CLASSES[k / 3 % 8];
            let term = TERMS[k % 3];
            Borrowing {
                balance: self.value(class.balances[k % 3]),
                coupon: self.value(class.cell),
                months: self.value(term.cell),
            }
        })
    }

    // The sum of their balances.
    pub fn borrowed(self) -> u64 {
        let mut sum: u64 = 0;
        for class in CLASSES {
            for cell in class.balances {
                sum = sum.saturating_add(self.value(cell));
            }
        }
        sum
    }
}
