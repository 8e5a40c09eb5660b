// The value that a record gives its cell.
ghost use Rattle.std.specs.Prelude.{◌≡◌, ◌≤◌};
ghost use Rattle.form.specs.Limits.{held_limit};
ghost use Rattle.form.specs.Classes.{cell_class};
ghost use Rattle.record_fields.specs.Records.{record_cell};
ghost use Rattle.filing_contents.specs.Amounts.{filed_value, amount_at};

use form::tables::{COUPON_CLASS, cell_class};
use record_fields::{amendment_state, amendment_value, record_cell, record_kind, record_value};
use record_kinds::{AMENDMENT_KIND, FINE_COUPON_KIND};

// The value that the record at an offset gives its cell: a coupon that is not filed in thousandths counts tenfold.
pub fn amount_at(s: &[u8], at: usize) -> u64
    requires { amount_at s.now at ≤ held_limit (cell_class (record_cell s.now at)) }
    ensures { result ≡ amount_at s.now at }
{
    if s.len() <= at {
        return 0;
    }
    let value = filed_value(s, at);
    if record_kind(s, at) == FINE_COUPON_KIND {
        return value;
    }
    if cell_class(record_cell(s, at)) == COUPON_CLASS {
        return 10 * value;
    }
    value
}

// The value that the record at an offset holds for its cell, in the record's unit: an amendment that withdraws its cell holds none.
fn filed_value(s: &[u8], at: usize) -> u64
    ensures { result ≡ filed_value s.now at }
{
    if record_kind(s, at) != AMENDMENT_KIND {
        return record_value(s, at);
    }
    if amendment_state(s, at) != 0 {
        return 0;
    }
    amendment_value(s, at)
}
