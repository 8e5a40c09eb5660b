// The longest term that has to be discounted.
ghost use Rattle.std.specs.Prelude.{◌≡◌};
ghost use Rattle.value_places.specs.Inner.LongestTerm.{longest_term, term_of};

use form::sub_balances::{SUB_BALANCES, SubBalance};

// The longest term among the places with a balance.
pub fn longest_term(places: [SubBalance; SUB_BALANCES]) -> u64
    ensures { result ≡ longest_term places }
{
    let mut longest = 0u64;
    for i in 0..SUB_BALANCES {
        longest = longest.max(term_of(places[i]));
    }
    longest
}

// The remaining months of a place with a balance, 0 of one without.
fn term_of(place: SubBalance) -> u64
    ensures { result ≡ term_of place }
{
    if place.balance == 0 {
        0
    } else {
        place.remaining_months
    }
}
