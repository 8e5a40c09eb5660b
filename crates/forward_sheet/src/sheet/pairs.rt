// The pairs of one term in one scenario, written into a list.
ghost use Rattle.std.specs.Prelude.{ℕ, ◌+◌, ◌*◌, ◌≤◌, ◌<◌, ◌≡◌, length, set};
ghost use Rattle.std.proofs.Math.IntN.{sub_ℕ};
ghost use Rattle.pricing.specs.Scales.{rate_scale};
ghost use Rattle.forward_rates.specs.Forwards.{growth_limit};
ghost use Rattle.forward_sheet.specs.Sheet.{pairs_over, HoldsTerm};
ghost use Rattle.forward_sheet.specs.Inner.Runs.{Changed, Accumulated, WithinLimit};

use form::limits::SHEET_MONTHS;
use forward_rates::forward;
use forward_rates::terms::term_at;
use pricing::Bounds;

// The scale of a rate as a month's growth.
const RATE_SCALE: i64 = 120_000;

// Writes the pairs over the term at an index from an index of the list on, month after month, and answers the index behind them.
pub(crate) fn write_term(
    figures: &[u64; SHEET_MONTHS + 1],
    index: usize,
    at: usize,
    list: &mut [i64],
) -> usize
    requires { WithinLimit figures.now × (at + 2 * pairs_over index ≤ length list.old) }
    ensures { (result ≡ at + 2 * pairs_over index) × Changed at (at + 2 * pairs_over index) list.old list.new
        × ((growth : ℕ → ℕ) → Accumulated growth figures.now → HoldsTerm growth index at list.new) }
{
    let term = term_at(index) as usize;
    let pairs = SHEET_MONTHS + 1 - term;
    for month in 0..pairs {
        let pair = forward(figures[month], figures[month + term], index);
        write_pair(pair, at + 2 * month, list);
    }
    at + 2 * pairs
}

// Writes a pair of growths as rates.
fn write_pair(pair: Bounds<u64>, at: usize, list: &mut [i64])
    requires { (pair.lower ≤ growth_limit) × (pair.upper ≤ growth_limit) × (at + 1 < length list.old) }
    ensures { list.new ≡ set (set list.old at (sub_ℕ pair.lower rate_scale)) (at + 1) (sub_ℕ pair.upper rate_scale) }
{
    let lower = pair.lower as i64 - RATE_SCALE;
    list[at] = lower;
    let upper = pair.upper as i64 - RATE_SCALE;
    list[at + 1] = upper;
}
