// The lines of cells and of an unreadable line, appended to a text that has room for them.
ghost use Rattle.std.specs.Prelude.{◌≡◌, ◌+◌, ◌*◌, ◌≤◌, [], ◌∷◌, ◌++◌, length};
ghost use Rattle.arrayvec.specs.ArrayVec.{array_vec_len};
ghost use Rattle.text.specs.Decimal.{decimal};
ghost use Rattle.text.specs.Lines.{rest_of_line};
ghost use Rattle.text_certificates.specs.CellLines.{cell_lines, unreadable_text};

use arrayvec::ArrayVec;
use certificate_cells::filled_cells::CellValue;
use text::lines::append_line;
use text::{append, append_number};

// The line of each cell.
pub(crate) fn append_cells<const CAP: usize>(text: &mut ArrayVec<u8, CAP>, cells: &[CellValue])
    requires { array_vec_len text.old + 42 * length cells.now ≤ CAP }
    ensures { text.new.items ≡ text.old.items ++ cell_lines cells.now }
{
    for filled in cells {
        append_cell(text, filled.cell as u64, filled.value);
    }
}

// The line of a cell.
#[tactic(auto, using(std::proofs::lemmas::Grind::common_steps, text::proofs::DecimalLaws::decimal_length, crate::proofs::CellLineLaws::rest_short))]
fn append_cell<const CAP: usize>(text: &mut ArrayVec<u8, CAP>, cell: u64, value: u64)
    requires { array_vec_len text.old + 42 ≤ CAP }
    ensures line { text.new.items ≡ text.old.items ++ (decimal cell ++ rest_of_line (value ∷ [])) }
    ensures short { array_vec_len text.new ≤ array_vec_len text.old + 42 }
{
    append_number(text, cell);
    append_line(text, &[value]);
}

// The line of an unreadable line.
#[tactic(auto, using(std::proofs::lemmas::Grind::common_steps, crate::proofs::CellLineLaws::rest_short), unfolding(crate::specs::CellLines::unreadable_text, text::specs::Lines::unreadable_word))]
pub(crate) fn append_unreadable<const CAP: usize>(text: &mut ArrayVec<u8, CAP>, line: u64)
    requires { array_vec_len text.old + 42 ≤ CAP }
    ensures { text.new.items ≡ text.old.items ++ unreadable_text line }
{
    append(text, b"unreadable");
    append_line(text, &[line]);
}
