// 16: amendments that come with a number a second time. One pass for a block of numbers, with the set of the cells' numbers met: in linear time for every
// input, and only for blocks with a number that does not rise.

pub mod pass;

ghost use Rattle.std.specs.Prelude.{◌≡◌, false, ◌≤◌, ◌<◌, length};
ghost use Rattle.record_fields.specs.Records.{first_record};
ghost use Rattle.record_offsets.specs.Inner.Notes.{block_count, noted_before};
ghost use Rattle.record_checks.specs.Inner.Repetitions.{repeats, repetitions_below};

use crate::repetitions::pass::repetition;
use record_offsets::BLOCKS;

// The first record before `end` that amends a cell with a number that an earlier one has: `end` where there is none.
pub(crate) fn first_repetition(s: &[u8], falling: &[bool; BLOCKS], end: usize) -> usize
    requires { (end ≤ length s.now) × (falling.now ≡ (noted_before s.now end).falling) }
    ensures { result ≡ repetitions_below s.now block_count end }
{
    let mut first = end;
    for i in 0..BLOCKS {
        first = block_repetition(s, i, falling[i], first);
    }
    first
}

// The first record before `end` that amends a cell with a number of the block that an earlier one has. Where the numbers rise there is none, and no pass is made.
fn block_repetition(s: &[u8], block: usize, falling: bool, end: usize) -> usize
    requires end_in_bounds { (end ≤ length s.now) × (block < block_count) }
    requires end_value { falling ≡ false → first_record s.now (repeats s.now block) end ≡ end }
    ensures { result ≡ first_record s.now (repeats s.now block) end }
{
    if falling {
        repetition(s, block, end)
    } else {
        end
    }
}
