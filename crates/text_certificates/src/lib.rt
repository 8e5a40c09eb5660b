// The text that the program `cells` prints of its input: from a valuation date and certificates to the cells that they fill.
#![tactic(auto)]

pub mod cell_lines;
pub mod certificates_input;

ghost use Rattle.std.specs.Prelude.{◌≡◌, take};
ghost use Rattle.text_certificates.specs.Printed.{answer_text, printed_text};

use crate::cell_lines::{append_cells, append_unreadable};
use crate::certificates_input::read_text;
use arrayvec::ArrayVec;
use certificate_calendar::Date;
use certificates::to_cells;
use text::answer_lines::append_refused;
use text::append_too_long;

// The most bytes of an input.
pub const INPUT_LIMIT: usize = 131072;

// What the program reads: one byte more than an input may have, so that a longer one shows.
pub type Input = [u8; 131073];

// 28 lines of 42 bytes at most.
pub type CellText = ArrayVec<u8, 1176>;

// The text of the first `size` bytes that were read.
pub fn write_read(input: &Input, size: usize) -> CellText
    ensures printed { result.items ≡ printed_text (take size input.now) }
{
    write_cells(&input[..size.min(input.len())])
}

// The text of an input.
pub fn write_cells(input: &[u8]) -> CellText
    ensures printed { result.items ≡ printed_text input.now }
{
    let mut text = ArrayVec::new();
    if INPUT_LIMIT < input.len() {
        append_too_long(&mut text);
        return text;
    }
    let mut certificates: ArrayVec<u64, 65537> = ArrayVec::new();
    match read_text(input, &mut certificates) {
        Ok(valuation) => answer_text(valuation, certificates.as_slice()),
        Err(unreadable) => {
            append_unreadable(&mut text, unreadable.line as u64);
            text
        }
    }
}

// The cells that the certificates fill, or the line of the refusal.
fn answer_text(valuation: Date, certificates: &[u64]) -> CellText
    ensures { result.items ≡ answer_text valuation certificates.now }
{
    let mut text = ArrayVec::new();
    match to_cells(valuation, certificates) {
        Ok(cells) => append_cells(&mut text, cells.as_slice()),
        Err(refusal) => append_refused(&mut text, refusal),
    }
    text
}
