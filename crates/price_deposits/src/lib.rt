// One deposit in each scenario: its lower and upper values.
#![tactic(auto)]

pub mod deposit_prices;
pub mod values;

use form::limits::RATES;
use withdrawal_months::Levels;

// A deposit as its cash flows see it: coupon in thousandths of a percent a year, penalty in hundredths of a month, remaining months.
#[derive(Clone, Copy)]
pub struct Deposit {
    pub brokered: bool,
    pub coupon: u64,
    pub penalty: u64,
    pub months: u64,
}

// Retail rates in hundredths of a percent a year: of months 1 to 120 of column 1, then of column 2, then of column 3.
pub type RatePaths = [u16; RATES];

// Room for the levels of a deposit's months.
pub type MonthLevels = Levels;
