// The price of a sub-balance, or of a borrowing, in parts of 10^9, and its value in dollars. Each line
// of the monthly run is rounded once, down for the lower figure and up for the upper one.
use crate::borrowings::Borrowing;
use crate::records::{Filing, Kind};
use crate::rounding::Rounding;
use crate::shares::SubBalance;
use crate::withdrawals::WHOLE;

// The shifts of the seven scenarios, in hundredths of a percent a year.
pub const SHIFTS: [i64; 7] = [-300, -200, -100, 0, 100, 200, 300];

// The places of rows 1 and 2; the others are of rows 3 and 4.
const SHORT_PLACES: usize = 24;

// A figure of a scenario: its shift, and which way it is rounded.
#[derive(Clone, Copy, Debug)]
struct Figure {
    shift: i64,
    rounding: Rounding,
}

impl Figure {
    // The i-th of the fourteen: lower and upper of each scenario.
    fn nth(i: usize) -> Figure {
        Figure {
            shift: SHIFTS[i / 2 % 7],
            rounding: Rounding::BOTH[i % 2],
        }
    }

    // A yield or a retail rate in the scenario: 0 where the shift takes it below 0.
    fn shifted(self, rate: u64) -> u64 {
        rate.saturating_add_signed(self.shift)
    }

    // 120,000 / (120,000 + z) to the power of the month, z its shifted yield on the sheet of a kind,
    // rounded after each factor.
    fn discount_factor(self, filing: Filing, kind: Kind, month: u64) -> u64 {
        let z = self.shifted(filing.sheet_number(kind, month));
        (0..month).fold(WHOLE, |factor, _| {
            self.rounding
                .scaled(factor, 120000, z.saturating_add(120000))
        })
    }
}

// A filing that is valued, and the survivals of annual withdrawals.
#[derive(Clone, Copy)]
pub struct Valuation<'a> {
    pub filing: Filing<'a>,
    pub survivals: &'a [u64],
}

// The run after some months: the balance that is left, and the sum of flow × discount factor.
#[derive(Clone, Copy, Debug)]
struct Run {
    balance: u64,
    price: u64,
}

impl Valuation<'_> {
    // The totals of a scenario: lower and upper of the short places and of the long ones.
    pub fn totals(self, parts: &[SubBalance; 36], shift: i64) -> [u64; 4] {
        let (short, long) = parts.split_at(SHORT_PLACES);
        std::array::from_fn(|i| {
            let rows = if i < 2 { short } else { long };
            let rounding = Rounding::BOTH[i % 2];
            self.total(rows, Figure { shift, rounding })
        })
    }

    fn total(self, parts: &[SubBalance], figure: Figure) -> u64 {
        parts.iter().fold(0, |sum: u64, part| {
            sum.saturating_add(self.value(*part, figure))
        })
    }

    // The lower and the upper value in each scenario.
    pub fn bounds(self, part: SubBalance) -> [u64; 14] {
        std::array::from_fn(|i| self.value(part, Figure::nth(i)))
    }

    // A figure of the value. The price is run from a balance of 10^9 and month 1 to month T; there is
    // nothing to run for an empty sub-balance.
    fn value(self, part: SubBalance, figure: Figure) -> u64 {
        if part.balance == 0 {
            return 0;
        }
        let mut run = Run {
            balance: WHOLE,
            price: 0,
        };
        for t in 0..part.months {
            run = self.month(part, figure, t + 1, run);
        }
        figure.rounding.scaled(part.balance, run.price, 1000000)
    }

    // The run one month on. B_t is B_(t-1) with the coupon's twelfth added and 1 - q withdrawn, which
    // flows out with the servicing; what is left in the last month is paid out.
    fn month(self, part: SubBalance, figure: Figure, month: u64, run: Run) -> Run {
        let rounding = figure.rounding;
        let left = part.months.saturating_sub(month);
        let rate = figure.shifted(self.filing.retail_rate(part.column, month));
        let q = self.month_survival(part, rate, left);
        let grown = part
            .coupon
            .saturating_mul(2500)
            .saturating_add(q.saturating_mul(3));
        let after = rounding.scaled(run.balance, grown, 3000000000);
        let servicing: u64 = if part.is_brokered { 19000 } else { 175000 };
        let withdrawn = servicing.saturating_add(WHOLE.saturating_sub(q));
        let out = rounding.scaled(run.balance, withdrawn, WHOLE);
        let flow = if left == 0 {
            out.saturating_add(after)
        } else {
            out
        };
        let factor = figure.discount_factor(self.filing, Kind::Yields, month);
        Run {
            balance: after,
            price: run
                .price
                .saturating_add(rounding.scaled(flow, factor, WHOLE)),
        }
    }

    // The lower and the upper value in each scenario of some borrowings together.
    pub fn borrowed_bounds(self, parts: &[Borrowing]) -> [u64; 14] {
        std::array::from_fn(|i| {
            let figure = Figure::nth(i);
            parts.iter().fold(0, |sum: u64, part| {
                sum.saturating_add(self.borrowed_value(*part, figure))
            })
        })
    }

    // A figure of a borrowing's value: interest each month, and the balance in the last, nothing of it
    // withdrawn and no servicing.
    fn borrowed_value(self, part: Borrowing, figure: Figure) -> u64 {
        if part.balance == 0 {
            return 0;
        }
        let rounding = figure.rounding;
        let interest = rounding.scaled(WHOLE, part.coupon, 120000);
        let mut price: u64 = 0;
        for t in 0..part.months {
            let month = t + 1;
            let repaid = if month == part.months { WHOLE } else { 0 };
            let factor = figure.discount_factor(self.filing, Kind::Libor, month);
            price = price.saturating_add(rounding.scaled(
                interest.saturating_add(repaid),
                factor,
                WHOLE,
            ));
        }
        rounding.scaled(part.balance, price, 1000000)
    }
}
