// The largest value of a cell in a record of kind 1 or 6.
ghost use Rattle.std.specs.Prelude.{◌≡◌};
ghost use Rattle.record_verdicts.specs.Inner.SoundRecords.{most_in};

use form::limits::COUPON_LIMIT;
use form::tables::{COUPON_CLASS, cell_class, class_limit};

// In a record of kind 1, or of kind 6 where `fine`: coupons alone, which are in thousandths there. 0 where the cell is not listed for the kind.
pub(crate) fn most_in(cell: u64, fine: bool) -> u64
    ensures { result ≡ most_in fine cell }
{
    let class = cell_class(cell);
    if !fine {
        return class_limit(class);
    }
    if class == COUPON_CLASS {
        COUPON_LIMIT
    } else {
        0
    }
}
