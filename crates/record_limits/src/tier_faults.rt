// Refusal 11: tiers of annual withdrawal that do not load.
ghost use Rattle.std.specs.Prelude.{◌≡◌, ◌≤◌, ◌<◌};
ghost use Rattle.lists.specs.Tables.{any_below};
ghost use Rattle.form.specs.Limits.{tier_limit};
ghost use Rattle.record_limits.specs.TierFaults.{unfit_tier, unsound_tiers};

use form::limits::{TIER_LIMIT, WITHDRAWAL_LIMIT};
use record_fields::{record_kind, sheet_number, tier_count};
use record_kinds::TIERS_KIND;

// How many tiers a record may count, as it counts them.
const MOST_TIERS: u16 = TIER_LIMIT as u16;

// 11: tiers that are not 1 to 16, or of which one does not load.
pub fn unsound_tiers(s: &[u8], at: usize) -> bool
    ensures { result ≡ unsound_tiers s.now at }
{
    if record_kind(s, at) != TIERS_KIND {
        return false;
    }
    let count = tier_count(s, at);
    if count < 1 {
        return true;
    }
    if MOST_TIERS < count {
        return true;
    }
    some_unfit(s, at, count as usize)
}

// One of the first n tiers does not load.
fn some_unfit(s: &[u8], at: usize, n: usize) -> bool
    requires { n ≤ tier_limit }
    ensures { result ≡ any_below (unfit_tier s.now at) n }
{
    (0..n).any(|i| unfit_tier(s, at, i))
}

// The i-th tier, from 0, does not load.
fn unfit_tier(s: &[u8], at: usize, i: usize) -> bool
    requires { i < tier_limit }
    ensures { result ≡ unfit_tier s.now at i }
{
    let edge = sheet_number(s, at, 2 + 2 * i);
    let withdrawal = sheet_number(s, at, 3 + 2 * i);
    if WITHDRAWAL_LIMIT < withdrawal {
        return true;
    }
    if i == 0 {
        return edge != 0;
    }
    if edge <= sheet_number(s, at, 2 + 2 * (i - 1)) {
        return true;
    }
    withdrawal < sheet_number(s, at, 3 + 2 * (i - 1))
}
