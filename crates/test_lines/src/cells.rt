// The cells that come back for certificates.
use crate::output::{end_line, next_number, text};
use crate::verdicts::{print_accepted, print_refused};
use answers::Refusal;
use certificate_cells::filled_cells::{CellValue, Cells};
use std::io;

// The answer, the count and the cells with their values: none for a refusal.
pub fn print_cells(rt: &impl Print, made: Result<Cells, Refusal>) -> io::Result<()> {
    match made {
        Ok(cells) => {
            print_accepted(rt)?;
            print_list(rt, cells.as_slice())
        }
        Err(refusal) => {
            print_refused(rt, refusal)?;
            print_list(rt, &[])
        }
    }
}

fn print_list(rt: &impl Print, cells: &[CellValue]) -> io::Result<()> {
    text(rt, b"cells")?;
    next_number(rt, cells.len() as u64)?;
    end_line(rt)?;
    for cell in cells {
        print_cell(rt, *cell)?;
    }
    Ok(())
}

fn print_cell(rt: &impl Print, cell: CellValue) -> io::Result<()> {
    text(rt, b"cell")?;
    next_number(rt, cell.cell as u64)?;
    next_number(rt, cell.value)?;
    end_line(rt)
}
