// The limits of the form, inclusive (01:24, 01:51; 02:CR 1, CR 4), and where the numbers of its sheets stand in one array. The code takes them from here; the
// months of the rows (`form`) are figures of their own.

// Of a balance, of a column's brokered balance or balance subject to penalty, and of the totals of certificates and borrowings, in thousands of dollars.
pub const BALANCE_LIMIT: u64 = 999_999_999;

pub const COLUMN_LIMIT: u64 = 3_999_999_996;

pub const TOTAL_LIMIT: u64 = 8_999_999_991;

pub const BORROWINGS_TOTAL_LIMIT: u64 = 23_999_999_976;

// Of a coupon: as filed, in hundredths of a percent a year, and in what a filing says, in thousandths.
pub const FILED_COUPON_LIMIT: u64 = 1_500;

pub const COUPON_LIMIT: u64 = 15_000;

// Of remaining months, the longest term, also as the length of an array with an entry for each month of a term, and of a penalty in hundredths of a month.
pub const TERM_MONTHS: usize = 120;

pub const MONTHS_LIMIT: u64 = TERM_MONTHS as u64;

pub const PENALTY_LIMIT: u64 = 3_600;

// Of a value that is accepted and not used: any of 8 bytes.
pub const UNUSED_LIMIT: u64 = 18_446_744_073_709_551_615;

// Of a yield or a retail rate, in hundredths of a percent a year.
pub const RATE_LIMIT: u16 = 2_500;

// The months of a sheet, and how many retail rates there are by month, column by column.
pub const SHEET_MONTHS: usize = 120;

pub const RATES: usize = 360;

// The numbers of all sheets in one array: where those of each begin, and how many there are.
pub const YIELDS_START: usize = 0;

pub const RATES_START: usize = 120;

pub const LIBOR_START: usize = 480;

pub const SHEET_NUMBERS: usize = 600;

// Of tiers, and of their annual withdrawal, in thousandths.
pub const TIER_LIMIT: usize = 16;

pub const WITHDRAWAL_LIMIT: u16 = 600;
