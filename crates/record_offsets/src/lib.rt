// What is noted of the records of a filing.
#![tactic(auto)]

ghost use Rattle.std.specs.Prelude.{◌≡◌, true, false, cond, ◌||◌, List, ℕ, ◌+◌, ◌-◌, ◌≤◌, ltb, length, get_or, set, Some};
ghost use Rattle.form.specs.Cells.{first_cell};
ghost use Rattle.record_fields.specs.Records.{record_kind};
ghost use Rattle.record_kinds.specs.declared.items.Item.TheVariants.{Cell, Amendment};
ghost use Rattle.record_kinds.specs.Kinds.{names_cell};
ghost use Rattle.record_kinds.specs.Items.{record_class, record_item};
ghost use Rattle.record_offsets.specs.Counting as counts;
ghost use Rattle.record_offsets.specs.Inner.Notes as notes;

use form::{CELLS, FIRST_CELL};
use record_fields::{field_within, number_of};
use record_kinds::items::{Item, record_item};
use record_kinds::{AMENDMENT_KIND, KINDS};

// The numbers of amendments are noted by blocks of so many.
pub const BLOCK: u16 = 512;

pub const BLOCKS: usize = 128;

// The record at an offset is noted. The arrays hold the offset of the first record of each kind of sheet, and of each cell from 601 on; of the record that counts for
// each cell: the input's length where there is none. And for each block of numbers whether an amendment with one of them ranks no higher than the record
// that counts before it.
pub fn note(
    s: &[u8],
    at: usize,
    sheets: &mut [usize; KINDS],
    cells: &mut [usize; CELLS],
    counting: &mut [usize; CELLS],
    falling: &mut [bool; BLOCKS],
)
    ensures { notes.noted_as sheets.new cells.new counting.new falling.new
        ≡ notes.note_item s.now (notes.noted_as sheets.old cells.old counting.old falling.old)
        (record_item s.now at) at }
{
    match record_item(s, at) {
        Some(Item::Cell(cell)) => {
            note_cell(s, at, cell, cells, counting);
        }
        Some(Item::Sheet(kind)) => {
            sheets[kind] = at;
        }
        Some(Item::Amendment(cell, number)) => {
            note_amendment(s, at, cell, number, counting, falling);
        }
        None => {}
    }
}

// The same of a record within the bytes whose kind names a cell, and whose cell is listed for it.
pub fn note_named(
    s: &[u8],
    at: usize,
    cells: &mut [usize; CELLS],
    counting: &mut [usize; CELLS],
    falling: &mut [bool; BLOCKS],
)
    requires { (at + 14 ≤ length s.now) × (names_cell (record_kind s.now at) ≡ true) × (record_class s.now at ≡ 0 → ⊥) }
    ensures { (sheets : List ℕ) → notes.noted_as sheets cells.new counting.new falling.new
        ≡ notes.note_item s.now (notes.noted_as sheets cells.old counting.old falling.old)
        (record_item s.now at) at }
{
    let cell = field_within(s, at, 4, 2);
    if field_within(s, at, 2, 2) as usize == AMENDMENT_KIND {
        note_amendment(s, at, cell, number_of(s, at, 2, true), counting, falling);
    } else {
        note_cell(s, at, cell, cells, counting);
    }
}

// A record of a cell is noted.
fn note_cell(
    s: &[u8],
    at: usize,
    cell: u64,
    cells: &mut [usize; CELLS],
    counting: &mut [usize; CELLS],
)
    requires { record_item s.now at ≡ Some (Cell cell) }
    ensures { (cells.new ≡ set cells.old (cell - first_cell) at)
        × (counting.new ≡ notes.note_counting s.now counting.old cell at) }
{
    let i = (cell - FIRST_CELL) as usize;
    let before = counting[i];
    cells[i] = at;
    counting[i] = counting_of(rank(s, cell, before), 1, before, at);
}

// An amendment of a cell is noted.
fn note_amendment(
    s: &[u8],
    at: usize,
    cell: u64,
    number: u16,
    counting: &mut [usize; CELLS],
    falling: &mut [bool; BLOCKS],
)
    requires { record_item s.now at ≡ Some (Amendment cell number) }
    ensures { (counting.new ≡ notes.note_counting s.now counting.old cell at)
        × (falling.new ≡ set falling.old (notes.block_of number) (get_or falling.old (notes.block_of number) false
        || notes.outranked s.now cell (get_or counting.old (cell - first_cell) 0) at)) }
{
    let i = (cell - FIRST_CELL) as usize;
    let before = counting[i];
    let own = number as u64 + 1;
    let high = rank(s, cell, before);
    let block = (number / BLOCK) as usize;
    counting[i] = counting_of(high, own, before, at);
    falling[block] = falling[block] | (own <= high);
}

// Which of two records counts for a cell, by their ranks: the later one, of rank `own`, where it ranks higher.
fn counting_of(high: u64, own: u64, before: usize, at: usize) -> usize
    ensures { result ≡ cond (ltb high own) at before }
{
    if high < own { at } else { before }
}

// The rank of a record for a cell: one more than its number, 0 where it is not of the cell or no record stands there.
fn rank(s: &[u8], cell: u64, at: usize) -> u64
    ensures { result ≡ counts.rank s.now cell at }
{
    if s.len() <= at {
        return 0;
    }
    match record_item(s, at) {
        Some(Item::Cell(n)) => { if n == cell { 1 } else { 0 } }
        Some(Item::Amendment(n, number)) => { if n == cell { u64::from(number) + 1 } else { 0 } }
        Some(Item::Sheet(_)) => 0,
        None => 0,
    }
}
