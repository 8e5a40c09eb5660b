// The search for a tier of a filing, from a gain and a cost alone.
use std::io;
use test_lines::input::number_at;
use test_lines::output::{end_line, next_number, text};
use test_lines::verdicts::print_refused;
use withdrawal::{Incentive, ReachedTier};
use withdrawal_filing::tier_search::{NoTier, tier_for};

// Prints the tier that is reached. An input has what the gain adds, what it takes off and the cost, 8 bytes each, and the filing.
pub(crate) fn print_search(rt: &impl Print, input: &[u8]) -> io::Result<()> {
    if 24 <= input.len() {
        let incentive = Incentive {
            earned: number_at(input, 0),
            forfeited: number_at(input, 8),
            cost: number_at(input, 16),
        };
        print_tier(rt, tier_for(&input[24..], incentive))?;
    }
    Ok(())
}

// The annual withdrawal, its survival and the number of edges tried; or why there is none.
fn print_tier(rt: &impl Print, answer: Result<ReachedTier, NoTier>) -> io::Result<()> {
    match answer {
        Ok(tier) => {
            text(rt, b"tier")?;
            next_number(rt, tier.withdrawal)?;
            next_number(rt, tier.survival)?;
            next_number(rt, tier.edges_tried as u64)?;
            end_line(rt)
        }
        Err(NoTier::Refused(refusal)) => print_refused(rt, refusal),
        Err(NoTier::TooLarge) => text(rt, b"too large\n"),
    }
}
