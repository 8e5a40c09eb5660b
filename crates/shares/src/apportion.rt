// An amount split by cumulative shares, so that the shares add up.
ghost use Rattle.std.specs.Prelude.{◌≡◌, ◌+◌, ◌≤◌};
ghost use Rattle.form.specs.Limits.{column_limit};
ghost use Rattle.shares.specs.Apportion.{cumulative_share, share_behind};
ghost use Rattle.shares.specs.Inner.ShareRows.{RowWithin, row_shares};
ghost use Rattle.shares.specs.Inner.Rows.{row_place};

use form::sub_balances::{PLACE_VALUES, SubBalance};

// A row of a column: the column's sum, the sum of the rows above it, its balance, the column's brokered balance and balance subject to penalty, all
// in thousands of dollars, its cells' WAC in thousandths of a percent a year and WARM in months, and the column's penalty in hundredths of a month.
#[derive(Clone, Copy, Debug, PartialEq, Eq)]
pub struct Row {
    pub total: u64,
    pub above: u64,
    pub balance: u64,
    pub brokered: u64,
    pub penalized: u64,
    pub coupon: u64,
    pub remaining_months: u64,
    pub penalty: u64,
}

impl Row {
    // The four sub-balances of the row.
    pub(crate) fn shares(self) -> [u64; 4]
        requires { RowWithin self }
        ensures { result ≡ row_shares self }
    {
        let held = share_behind(self.brokered, self.total, self.above, self.balance);
        let retail = self.balance - held;
        let retail_penalized = share_behind(self.penalized, self.total, self.above, retail);
        let brokered_penalized = share_behind(
            self.penalized,
            self.total,
            self.above + retail,
            held,
        );
        [
            retail_penalized,
            retail - retail_penalized,
            brokered_penalized,
            held - brokered_penalized,
        ]
    }

    // A place of the row, with its balance and its penalty. Its values are 0: the shares are not valued.
    pub(crate) fn place(self, balance: u64, penalty: u64) -> SubBalance
        ensures { result ≡ row_place self balance penalty }
    {
        SubBalance {
            balance,
            coupon: self.coupon,
            remaining_months: self.remaining_months,
            penalty,
            values: [0; PLACE_VALUES],
        }
    }
}

// The share of a part that stands behind a sum of `before`.
fn share_behind(amount: u64, total: u64, before: u64, part: u64) -> u64
    requires { (before + part ≤ total) × (total ≤ column_limit) × (amount ≤ total) }
    ensures { (result ≡ share_behind amount total before part) × (result ≤ part) }
{
    cumulative_share(amount, total, before + part) - cumulative_share(amount, total, before)
}

// The share of the parts so far, whose sum is `running`.
fn cumulative_share(amount: u64, total: u64, running: u64) -> u64
    requires { (amount ≤ column_limit) × (running ≤ column_limit) }
    ensures { result ≡ cumulative_share amount total running }
{
    if total == 0 {
        return 0;
    }
    amount * running / total
}
