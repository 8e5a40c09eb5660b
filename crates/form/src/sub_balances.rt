// The thirty-six places: what one holds, and the numbers of a valued filing. Their order stands in the definitions. Nothing runs here.

// The scenarios and the places.
pub const SCENARIOS: usize = 7;

pub const SUB_BALANCES: usize = 36;

// The values of a place, lower and upper in each scenario, and its numbers, the balance and the values.
pub const PLACE_VALUES: usize = 2 * SCENARIOS;

pub const PLACE_NUMBERS: usize = 1 + PLACE_VALUES;

// The totals begin behind the numbers of all places, and are four in each scenario; and the numbers of all.
pub const TOTALS_START: usize = PLACE_NUMBERS * SUB_BALANCES;

pub const TOTALS: usize = 4 * SCENARIOS;

pub const NUMBERS: usize = TOTALS_START + TOTALS;

// What a place of the thirty-six holds: the balance in thousands of dollars, its cell's WAC in thousandths of a percent a year and its cell's WARM
// in months, the penalty in hundredths of a month (0 if not subject), and in each scenario the lower and the upper value in dollars.
#[derive(Clone, Copy)]
pub struct SubBalance {
    pub balance: u64,
    pub coupon: u64,
    pub remaining_months: u64,
    pub penalty: u64,
    pub values: [u64; PLACE_VALUES],
}

// A place that holds nothing.
pub const NO_PLACE: SubBalance = SubBalance {
    balance: 0,
    coupon: 0,
    remaining_months: 0,
    penalty: 0,
    values: [0; PLACE_VALUES],
};
