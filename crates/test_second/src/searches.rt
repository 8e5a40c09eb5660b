// What is printed of a search for a tier. The input has what is earned, what is lost and the cost,
// 8 bytes each, and a filing, whose tiers are searched.
use crate::bytes::number;
use crate::lines::print_answer;
use crate::pricing::Valuation;
use crate::records::Filing;
use crate::tiers::Tiers;
use crate::withdrawals::Gain;
use std::io;

// The largest parts of a gain, and the largest cost, that are searched with.
const MOST_GAIN: u64 = 10000000000000000;

const MOST_COST: u64 = 100000000000000;

// The answer of a search; nothing for an input that is cut short.
pub fn print_search(rt: &impl Print, s: &[u8], survivals: &[u64]) -> io::Result<()> {
    let Some(bytes) = s.get(24..) else {
        return Ok(());
    };
    let gain = Gain {
        earned: number(s, 0, 8),
        lost: number(s, 8, 8),
        cost: number(s, 16, 8),
    };
    let filing = Filing { bytes };
    print_found(rt, Valuation { filing, survivals }, gain)
}

// The annual withdrawal, its survival and the number of edges tried; or why there is none.
fn print_found(rt: &impl Print, valuation: Valuation, gain: Gain) -> io::Result<()> {
    let answer = valuation.filing.check();
    if answer.is_err() {
        return print_answer(rt, answer);
    }
    if MOST_GAIN < gain.earned || MOST_GAIN < gain.lost || MOST_COST < gain.cost {
        return println!(rt; "too large");
    }
    let tier = Tiers::of(valuation.filing).reached(gain);
    let withdrawal = tier.withdrawal;
    let survival = valuation.survival(withdrawal);
    let edges = tier.edges;
    println!(rt; "tier {withdrawal} {survival} {edges}")
}
