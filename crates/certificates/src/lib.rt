// Certificates to cells: from the dates, balances and coupons that branches keep to the cells of Schedule CMR.
#![tactic(auto)]

mod certificate_sums;

ghost use Rattle.certificates.specs.Promise.{Converted};

use crate::certificate_sums::scan;
use answers::Refusal;
use certificate_calendar::Date;
use certificate_cells::filled_cells::Cells;

// The cells that the certificates fill at a valuation date. The list holds eight numbers for each certificate: issue year, month and day, maturity
// year, month and day, balance in thousands of dollars, coupon in hundredths of a percent a year. Only whole certificates count.
pub fn to_cells(valuation: Date, certificates: &[u64]) -> Result<Cells, Refusal>
    ensures converted { Converted valuation certificates.now result }
{
    if !(1..=1000).contains(&(certificates.len() / 8)) {
        return Err(Refusal::OverLimit(0));
    }
    let totals = scan(valuation, certificates)?;
    Ok(totals.cells())
}
