// The records of a filing, front to back: each is tested at its offset, and a reader moved there says where the next one stands.
ghost use Rattle.std.specs.Prelude.{◌≡◌, ◌<◌, length};
ghost use Rattle.record_offsets.specs.Inner.Notes.{noted_as, noted_before};
ghost use Rattle.record_checks.specs.Inner.Scans.{Visited};
ghost use Rattle.record_verdicts.specs.Inner.PlainVerdicts.{first_plain};

use answers::Refusal;
use form::CELLS;
use record_kinds::KINDS;
use record_offsets::{BLOCKS, note, note_named};
use record_reader::next_of;
use record_verdicts::check_record;
use record_verdicts::sound_records::sound_record;

// Reads the records up to the first that is faulty but for 16, each once, notes those before it, and answers its offset: the input's length where none is.
pub(crate) fn scan(
    s: &[u8],
    sheets: &mut [usize; KINDS],
    cells: &mut [usize; CELLS],
    counting: &mut [usize; CELLS],
    falling: &mut [bool; BLOCKS],
) -> usize
    ensures { (noted_as sheets.new cells.new counting.new falling.new
        ≡ noted_before s.now (first_plain s.now))
        × (result ≡ first_plain s.now) }
{
    *sheets = [s.len(); KINDS];
    *cells = [s.len(); CELLS];
    *counting = [s.len(); CELLS];
    *falling = [false; BLOCKS];
    let mut at = 0;
    // A record's length moves the offset, and not a count.
    while at < s.len() {
        if visit(s, at, sheets, cells, counting, falling).is_err() {
            return at;
        }
        at = next_of(s, at);
    }
    at
}

// The answer on the record at an offset, given what is noted of those before it. A sound record is noted.
fn visit(
    s: &[u8],
    at: usize,
    sheets: &mut [usize; KINDS],
    cells: &mut [usize; CELLS],
    counting: &mut [usize; CELLS],
    falling: &mut [bool; BLOCKS],
) -> Result<(), Refusal>
    requires { (at < length s.now) × (noted_as sheets.old cells.old counting.old falling.old ≡ noted_before s.now at) }
    ensures { Visited s.now at result (noted_as sheets.new cells.new counting.new falling.new) }
{
    if sound_record(s, at, cells) {
        note_named(s, at, cells, counting, falling);
        return Ok(());
    }
    check_record(s, at, sheets, cells)?;
    note(s, at, sheets, cells, counting, falling);
    Ok(())
}
