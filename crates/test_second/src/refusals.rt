// Why a filing, a list of certificates or a change of a book is refused: the fault and its location.
use crate::borrowings::{CLASSES, TERMS};
use crate::cells::{BORROWED, POSITIONS, TOTAL, fine_limit, limit};
use crate::records::{Filing, Kind, Record};
use crate::tiers::Tiers;
use std::fmt;

// The faults, each with its number.
#[derive(Clone, Copy, Debug, PartialEq, Eq)]
pub enum Fault {
    CutShort = 1,
    WrongLength = 2,
    WrongCell = 3,
    Repeated = 4,
    OverLimit = 5,
    SheetMissing = 6,
    MonthsOutside = 7,
    AboveColumn = 8,
    TotalDiffers = 9,
    ListTooShort = 10,
    TiersDisordered = 11,
    RatesTwice = 12,
    NoSuchDay = 13,
    NotOutstanding = 14,
    TooManyMonths = 15,
    AmendedTwice = 16,
    PlaceOutside = 17,
    LiborMissing = 18,
    CouponOutside = 19,
}

#[derive(Clone, Copy, Debug, PartialEq, Eq)]
pub struct Refusal {
    fault: Fault,
    location: u64,
}

impl Fault {
    // The refusal for a fault at a location.
    pub fn at(self, location: u64) -> Refusal {
        Refusal {
            fault: self,
            location,
        }
    }
}

// The number of the refusal and its location.
impl fmt::Display for Refusal {
    fn fmt<W: fmt::Write>(&self, f: &mut fmt::Formatter<W>) -> fmt::Result {
        let number = self.fault as u64;
        let location = self.location;
        write!(f, "{number} {location}")
    }
}

// The refusal of a list of `length` entries, of which `needed` are needed.
pub fn check_list(length: u64, needed: u64) -> Result<(), Refusal> {
    if length < needed {
        return Err(Fault::ListTooShort.at(length));
    }
    Ok(())
}

impl Filing<'_> {
    // The first refusal: of each record in turn, and then of the whole.
    pub fn check(self) -> Result<(), Refusal> {
        let mut end = 0;
        for record in self.records() {
            if let Err(fault) = record.check(self.until(record.at)) {
                return Err(fault.at(record.at as u64));
            }
            end = record.end();
        }
        if end < self.bytes.len() {
            return Err(Fault::CutShort.at(end as u64));
        }
        self.check_whole()
    }

    // Refusals 6, 18, 19 and 7 to 9, of a filing whose records are each in order.
    fn check_whole(self) -> Result<(), Refusal> {
        let end = self.bytes.len() as u64;
        if !self.has(Kind::Yields) || !(self.has(Kind::Rates) || self.has(Kind::Path)) {
            return Err(Fault::SheetMissing.at(end));
        }
        let borrowed = self.borrowed();
        if borrowed != 0 && !self.has(Kind::Libor) {
            return Err(Fault::LiborMissing.at(end));
        }
        for class in CLASSES {
            if class.is_used(self) && !class.holds(self.value(class.cell)) {
                return Err(Fault::CouponOutside.at(class.cell));
            }
        }
        for position in POSITIONS {
            if self.value(position.balance) != 0 && !position.is_of_row(self.value(position.warm)) {
                return Err(Fault::MonthsOutside.at(position.warm));
            }
        }
        for term in TERMS {
            if term.is_used(self) && !term.holds(self.value(term.cell)) {
                return Err(Fault::MonthsOutside.at(term.cell));
            }
        }
        for cell in 650..656 {
            if self.column_sum((cell - 650) % 3 + 1, 9) < self.value(cell) {
                return Err(Fault::AboveColumn.at(cell));
            }
        }
        if self.value(TOTAL) != self.balance_sum() {
            return Err(Fault::TotalDiffers.at(TOTAL));
        }
        if self.value(BORROWED) != borrowed {
            return Err(Fault::TotalDiffers.at(BORROWED));
        }
        Ok(())
    }

    // The sum of the nine balances.
    fn balance_sum(self) -> u64 {
        POSITIONS.iter().fold(0, |sum: u64, position| {
            sum.saturating_add(self.value(position.balance))
        })
    }
}

impl Record<'_> {
    // The first fault of a record behind others, of 2 to 5, 11, 12 and 16.
    fn check(self, before: Filing) -> Result<(), Fault> {
        match self.kind() {
            None => Err(Fault::WrongLength),
            Some(Kind::Cell) => self.check_cell(before, limit(self.cell())),
            Some(Kind::Fine) => self.check_cell(before, fine_limit(self.cell())),
            Some(Kind::Amendment) => self.check_amendment(before, limit(self.cell())),
            Some(Kind::Tiers) => self.check_tiers(before),
            Some(Kind::Yields) => self.check_sheet(before, 120, Kind::Yields, Kind::Yields),
            Some(Kind::Rates) => self.check_sheet(before, 3, Kind::Rates, Kind::Path),
            Some(Kind::Path) => self.check_sheet(before, 360, Kind::Path, Kind::Rates),
            Some(Kind::Libor) => self.check_sheet(before, 120, Kind::Libor, Kind::Libor),
        }
    }

    // Fault 2, 3, 4 or 5 of a cell of kind 1 or 6, which have their cells in common. A cell that the
    // kind may not have has no limit.
    fn check_cell(self, before: Filing, limit: Option<u64>) -> Result<(), Fault> {
        if self.length() != 12 {
            return Err(Fault::WrongLength);
        }
        let most = limit.ok_or(Fault::WrongCell)?;
        let cell = self.cell();
        if before
            .records()
            .any(|other| other.is_cell() && other.cell() == cell)
        {
            return Err(Fault::Repeated);
        }
        if most < self.value() {
            return Err(Fault::OverLimit);
        }
        Ok(())
    }

    // A record of kind 1 or 6.
    fn is_cell(self) -> bool {
        matches!(self.kind(), Some(Kind::Cell | Kind::Fine))
    }

    // Fault 2, 3, 16 or 5 of an amendment. Its number is not 0, its state is 0, or 1 where the cell is
    // withdrawn, and a cell that is withdrawn has the value 0.
    fn check_amendment(self, before: Filing, limit: Option<u64>) -> Result<(), Fault> {
        if self.length() != 16 {
            return Err(Fault::WrongLength);
        }
        let most = limit.ok_or(Fault::WrongCell)?;
        if before.records().any(|other| self.is_amended_by(other)) {
            return Err(Fault::AmendedTwice);
        }
        let is_sound = match self.number(8, 2) {
            0 => self.value() <= most,
            1 => self.value() == 0,
            _ => false,
        };
        if !is_sound || self.amendment() == 0 {
            return Err(Fault::OverLimit);
        }
        Ok(())
    }

    // Whether another record is an amendment of the same cell with the same number.
    fn is_amended_by(self, other: Record) -> bool {
        other.kind() == Some(Kind::Amendment)
            && other.cell() == self.cell()
            && other.amendment() == self.amendment()
    }

    // Fault 2, 4, 12 or 5 of a sheet of `count` rates, with `other` for the kind that may not stand
    // before it beside its own.
    fn check_sheet(self, before: Filing, count: u64, kind: Kind, other: Kind) -> Result<(), Fault> {
        if self.length() != count.saturating_add(1).saturating_mul(2) {
            return Err(Fault::WrongLength);
        }
        if before.has(kind) {
            return Err(Fault::Repeated);
        }
        if before.has(other) {
            return Err(Fault::RatesTwice);
        }
        if (0..count).any(|k| 2500 < self.sheet_number(k.saturating_add(1))) {
            return Err(Fault::OverLimit);
        }
        Ok(())
    }

    // Fault 2, 4 or 11 of the tiers.
    fn check_tiers(self, before: Filing) -> Result<(), Fault> {
        let tiers = Tiers::Own(self);
        if self.length() != (tiers.count() as u64).saturating_mul(4).saturating_add(4) {
            return Err(Fault::WrongLength);
        }
        if before.has(Kind::Tiers) {
            return Err(Fault::Repeated);
        }
        if !tiers.are_in_order() {
            return Err(Fault::TiersDisordered);
        }
        Ok(())
    }
}
