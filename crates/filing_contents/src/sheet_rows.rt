// The row of yields that a kind of position is discounted on.
ghost use Rattle.std.specs.Prelude.{◌≡◌, length};
ghost use Rattle.form.specs.Limits.{sheet_months};
ghost use Rattle.filing_contents.specs.Contents.{yields_in, libor_in};
ghost use Rattle.filing_contents.specs.SheetRows.{sheet_row};

use form::limits::{LIBOR_START, SHEET_MONTHS, SHEET_NUMBERS, YIELDS_START};

// The two kinds of position.
#[derive(Clone, Copy)]
pub enum PositionKind {
    Certificate,
    Borrowing,
}

// The row used, of the numbers of all sheets: a part of them, uncopied.
pub fn row_used<'a>(sheets: &'a [u16; SHEET_NUMBERS], kind: PositionKind) -> &'a [u16]
    ensures { (result.now ≡ sheet_row kind (yields_in sheets.now) (libor_in sheets.now)) × (length result.now ≡ sheet_months) }
{
    let numbers: &[u16] = sheets;
    sheet_row(
        &numbers[YIELDS_START..YIELDS_START + SHEET_MONTHS],
        &numbers[LIBOR_START..LIBOR_START + SHEET_MONTHS],
        kind,
    )
}

// Of the CD and the LIBOR yields, the row that a kind of position uses.
fn sheet_row<'a>(cd: &'a [u16], libor: &'a [u16], kind: PositionKind) -> &'a [u16]
    ensures { result.now ≡ sheet_row kind cd.now libor.now }
{
    match kind {
        PositionKind::Certificate => cd,
        PositionKind::Borrowing => libor,
    }
}
