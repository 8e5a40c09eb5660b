// The search in a filing's withdrawal tiers by itself, for an incentive that is given.
ghost use Rattle.std.specs.Prelude.{◌≡◌};
ghost use Rattle.withdrawal_filing.specs.declared.tier_search.NoTier.TheVariants.{Refused};
ghost use Rattle.withdrawal_filing.specs.TierAnswers.{TierAnswered, too_large};

use crate::tiers_of;
use answers::Refusal;
use filing::read;
use form::CELLS;
use form::limits::SHEET_NUMBERS;
use withdrawal::{Incentive, ReachedTier};
use withdrawal_search::reached_tier;

// The largest parts of a gain, and the largest cost.
const GAIN_LIMIT: u64 = 10_000_000_000_000_000;

const COST_LIMIT: u64 = 100_000_000_000_000;

// Why no tier is reached: the filing is refused, or the incentive is too large.
#[derive(Clone, Copy, Debug, PartialEq, Eq)]
pub enum NoTier {
    Refused(Refusal),
    TooLarge,
}

impl From<Refusal> for NoTier {
    ghost from_gives = { λ refusal none. none ≡ Refused refusal };

    fn from(refusal: Refusal) -> NoTier {
        NoTier::Refused(refusal)
    }
}

// The tier of the filing that an incentive reaches: one of its own, or of the house's where it has none.
pub fn tier_for(filing: &[u8], incentive: Incentive) -> Result<ReachedTier, NoTier>
    ensures answered { TierAnswered filing.now incentive result }
{
    let mut cells = [0; CELLS];
    let mut sheets = [0; SHEET_NUMBERS];
    let reading = read(filing, &mut cells, &mut sheets)?;
    if too_large(incentive) {
        return Err(NoTier::TooLarge);
    }
    Ok(reached_tier(&tiers_of(reading.tiers), incentive))
}

// A part of the gain, or the cost, is above its limit.
fn too_large(incentive: Incentive) -> bool
    ensures { result ≡ too_large incentive }
{
    if GAIN_LIMIT < incentive.earned {
        return true;
    }
    if GAIN_LIMIT < incentive.forfeited {
        return true;
    }
    COST_LIMIT < incentive.cost
}
