// The forwards of a filing's CD sheet: from its bytes to 3,990 numbers.
#![tactic(auto)]

pub mod sheet;

ghost use Rattle.forward_sheet.specs.Promise.{ForwardsOf};

use crate::sheet::{FORWARDS, write_forwards};
use answers::Refusal;
use filing::read;
use form::CELLS;
use form::limits::SHEET_NUMBERS;

// Writes the forwards of a filing: the 3,990 numbers stand in the list where it is accepted, and the list is as it was on a refusal. A list under 3,990 numbers is
// refused before the filing is read.
pub fn forwards(filing: &[u8], list: &mut [i64]) -> Result<(), Refusal>
    ensures enclosed { ForwardsOf filing.now list.old result list.new }
{
    if list.len() < FORWARDS {
        return Err(Refusal::ListTooShort(list.len()));
    }
    let mut cells = [0; CELLS];
    let mut sheets = [0; SHEET_NUMBERS];
    read(filing, &mut cells, &mut sheets)?;
    write_forwards(&sheets, list);
    Ok(())
}
