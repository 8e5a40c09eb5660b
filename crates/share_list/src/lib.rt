// The split of a filing into a list of places that the caller lends.
#![tactic(auto)]

ghost use Rattle.std.specs.Prelude.{◌≤◌};
ghost use Rattle.share_list.specs.Split.{SplitOf, SplitFirst};

use answers::Refusal;
use filing::read;
use form::CELLS;
use form::limits::SHEET_NUMBERS;
use form::sub_balances::{SUB_BALANCES, SubBalance};
use shares::places::places_of;

// Fills in the thirty-six places of a filing, nine positions ascending and four places each. A list under thirty-six places is refused before the filing is read. A
// refusal changes no place, and the places past the thirty-sixth are left.
pub fn split(filing: &[u8], places: &mut [SubBalance]) -> Result<(), Refusal>
    ensures filled { SplitOf filing.now places.old result places.new }
{
    if places.len() < SUB_BALANCES {
        return Err(Refusal::ListTooShort(places.len()));
    }
    let mut cells = [0; CELLS];
    let mut sheets = [0; SHEET_NUMBERS];
    let reading = read(filing, &mut cells, &mut sheets)?;
    let split = places_of(&cells, reading.sums);
    places[..SUB_BALANCES].copy_from_slice(&split);
    Ok(())
}

// The same on the first `count` places of an array, for callers that hold no list.
pub fn split_first(
    filing: &[u8],
    places: &mut [SubBalance; 40],
    count: usize,
) -> Result<(), Refusal>
    requires { count ≤ 40 }
    ensures { SplitFirst filing.now places.old count result places.new }
{
    split(filing, &mut places[..count])
}
