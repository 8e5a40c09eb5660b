// A pass over the records for one block of numbers, by the steps of the reader.
ghost use Rattle.std.specs.Prelude.{◌≡◌, ◌+◌, ◌≤◌, ◌<◌, ltb, length, Some};
ghost use Rattle.form.specs.Cells.{first_cell, cell_count};
ghost use Rattle.record_kinds.specs.declared.items.Item.TheVariants.{Amendment};
ghost use Rattle.record_fields.specs.Records.{first_record};
ghost use Rattle.record_kinds.specs.Items.{same_item, record_item, first_with};
ghost use Rattle.record_offsets.specs.Inner.Notes.{block_count};
ghost use Rattle.record_checks.specs.Inner.Repetitions.{repeats, key_of, met_again, met_with};

use crate::number_set::{WORDS, holds, put};
use form::FIRST_CELL;
use record_fields::amendment_number;
use record_kinds::items::{Item, record_item};
use record_offsets::BLOCK;
use record_reader::next_of;

// The first record before `end` that amends a cell with a number of the block that an earlier one has: `end` where there is none.
pub(crate) fn repetition(s: &[u8], block: usize, end: usize) -> usize
    requires { (end ≤ length s.now) × (block < block_count) }
    ensures { result ≡ first_record s.now (repeats s.now block) end }
{
    let mut met = [0; WORDS];
    let mut at = 0;
    // A record's length moves the offset, and not a count.
    while at < end {
        if meets(s, block, at, &mut met) {
            return at;
        }
        at = next_of(s, at);
    }
    end
}

// The record amends a cell with a number of the block that was met for it; it is met. Most records are told by what would be their number.
fn meets(s: &[u8], block: usize, at: usize, met: &mut [u64; WORDS]) -> bool
    requires { block < block_count }
    ensures { (result ≡ met_again block (record_item s.now at) met.old)
        × (met.new ≡ met_with block (record_item s.now at) met.old) }
{
    if (amendment_number(s, at) / BLOCK) as usize != block {
        return false;
    }
    match record_item(s, at) {
        Some(Item::Amendment(cell, number)) => {
            let key = key_of(cell, number);
            let again = holds(met, key);
            put(met, key);
            again
        }
        Some(Item::Cell(_)) => false,
        Some(Item::Sheet(_)) => false,
        None => false,
    }
}

// What stands in a block's set for a cell and a number.
fn key_of(cell: u64, number: u16) -> u16
    requires { (first_cell ≤ cell) × (cell < first_cell + cell_count) }
    ensures { result ≡ key_of cell number }
{
    (cell - FIRST_CELL) as u16 * BLOCK + number % BLOCK
}

// An amendment of a cell with a number stands before `end`.
pub(crate) fn amended_before(s: &[u8], cell: u64, number: u16, end: usize) -> bool
    requires { end ≤ length s.now }
    ensures { result ≡ ltb (first_with s.now (Some (Amendment cell number)) end) end }
{
    let mut at = 0;
    // A record's length moves the offset, and not a count.
    while at < end {
        if amends(s, cell, number, at) {
            return true;
        }
        at = next_of(s, at);
    }
    false
}

// The record is the amendment of a cell with a number.
fn amends(s: &[u8], cell: u64, number: u16, at: usize) -> bool
    ensures { result ≡ same_item (record_item s.now at) (Some (Amendment cell number)) }
{
    match record_item(s, at) {
        Some(Item::Amendment(n, m)) => (n == cell) & (m == number),
        Some(Item::Cell(_)) => false,
        Some(Item::Sheet(_)) => false,
        None => false,
    }
}
