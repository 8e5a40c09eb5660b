// A filing and its records: a length of 2 bytes, the number of bytes after it, a kind of 2 bytes and a
// body, which begins with the cell number where the kind is 1, 6 or 7, and goes on with the
// amendment's number and state where it is 7. Whatever is wanted of a filing is looked for from its
// first byte on.
ghost use Rattle.std.specs.Prelude.{length};
ghost use Rattle.std.specs.Iterator.{at_most};

use crate::bytes::number;
use crate::cells::POSITIONS;

// The kinds of records, 1 to 8.
#[derive(Clone, Copy, Debug, PartialEq, Eq)]
pub enum Kind {
    Cell,
    Yields,
    Rates,
    Tiers,
    Path,
    Fine,
    Amendment,
    Libor,
}

impl Kind {
    fn of(number: u64) -> Option<Kind> {
        match number {
            1 => Some(Kind::Cell),
            2 => Some(Kind::Yields),
            3 => Some(Kind::Rates),
            4 => Some(Kind::Tiers),
            5 => Some(Kind::Path),
            6 => Some(Kind::Fine),
            7 => Some(Kind::Amendment),
            8 => Some(Kind::Libor),
            _ => None,
        }
    }
}

// A record: the bytes from its length on, and where they stand in the filing.
#[derive(Clone, Copy)]
pub struct Record<'a> {
    pub at: usize,
    bytes: &'a [u8],
}

impl Record<'_> {
    // The number of `size` bytes that stands at an offset in the record.
    pub fn number(self, offset: usize, size: usize) -> u64 {
        number(self.bytes, offset, size)
    }

    // How many bytes stand after the length.
    pub fn length(self) -> u64 {
        self.number(0, 2)
    }

    // Where the record ends in the filing.
    pub fn end(self) -> usize {
        self.at.saturating_add(self.bytes.len())
    }

    pub fn kind(self) -> Option<Kind> {
        Kind::of(self.number(2, 2))
    }

    // The cell of kind 1, 6 or 7.
    pub fn cell(self) -> u64 {
        self.number(4, 2)
    }

    // The number of an amendment.
    pub fn amendment(self) -> u64 {
        self.number(6, 2)
    }

    // The value of kind 1, 6 or 7: 0 where the amendment withdraws the cell.
    pub fn value(self) -> u64 {
        match self.kind() {
            Some(Kind::Amendment) => self.number(10, 8),
            _ => self.number(6, 8),
        }
    }

    // The n-th number, from 1 on, of a sheet.
    pub fn sheet_number(self, n: u64) -> u64 {
        self.number((n as usize).saturating_add(1).saturating_mul(2), 2)
    }

    // How a record stands among those of the cell: below all others where it is of kind 1 or 6, and an
    // amendment by its number.
    fn rank(self, cell: u64) -> Option<u64> {
        match self.kind()? {
            Kind::Cell | Kind::Fine if self.cell() == cell => Some(0),
            Kind::Amendment if self.cell() == cell => Some(self.amendment()),
            _ => None,
        }
    }
}

// The records of a filing in turn, up to one that is cut short or has no kind.
#[derive(Drop)]
pub struct Records<'a> {
    length: usize,
    rest: &'a [u8],
}

impl<'a> Iterator for Records<'a> {
    type Item = Record<'a>;

    ghost remaining = { λ records. at_most (length records.rest.now) };

    fn next(&mut self) -> Option<Record<'a>> {
        let length = number(self.rest, 0, 2) as usize;
        if length < 2 {
            return None;
        }
        let (bytes, rest) = self.rest.split_at_checked(length.saturating_add(2))?;
        let at = self.length.saturating_sub(self.rest.len());
        self.rest = rest;
        Some(Record { at, bytes })
    }
}

#[derive(Clone, Copy)]
pub struct Filing<'a> {
    pub bytes: &'a [u8],
}

impl<'a> Filing<'a> {
    pub fn records(self) -> Records<'a> {
        Records {
            length: self.bytes.len(),
            rest: self.bytes,
        }
    }

    // The filing up to an offset.
    pub fn until(self, at: usize) -> Filing<'a> {
        Filing {
            bytes: self.bytes.get(..at).unwrap_or(self.bytes),
        }
    }

    // The record of a kind that a filing has once.
    pub fn sheet(self, kind: Kind) -> Option<Record<'a>> {
        self.records().find(|record| record.kind() == Some(kind))
    }

    // Whether there is a record of a kind.
    pub fn has(self, kind: Kind) -> bool {
        self.sheet(kind).is_some()
    }

    // The n-th number, from 1 on, of the sheet of a kind.
    pub fn sheet_number(self, kind: Kind, n: u64) -> u64 {
        match self.sheet(kind) {
            Some(sheet) => sheet.sheet_number(n),
            None => 0,
        }
    }

    // The retail rate of a column from 1 to 3 in a month from 1 to 120. The path has the months of
    // column 1, then those of column 2 and of column 3.
    pub fn retail_rate(self, column: u64, month: u64) -> u64 {
        match self.sheet(Kind::Path) {
            Some(path) => {
                let before = column.saturating_sub(1).saturating_mul(120);
                path.sheet_number(before.saturating_add(month))
            }
            None => self.sheet_number(Kind::Rates, column),
        }
    }

    // The record that counts for a cell, the one with the highest number.
    fn standing(self, cell: u64) -> Option<Record<'a>> {
        self.records()
            .filter(|record| record.rank(cell).is_some())
            .max_by_key(|record| record.rank(cell))
    }

    // A cell's value, 0 where the filing does not have the cell or has withdrawn it.
    pub fn value(self, cell: u64) -> u64 {
        match self.standing(cell) {
            Some(record) => record.value(),
            None => 0,
        }
    }

    // A coupon in thousandths of a percent a year: kind 6 has thousandths, kinds 1 and 7 hundredths.
    pub fn coupon(self, wac: u64) -> u64 {
        match self.standing(wac) {
            Some(record) if record.kind() == Some(Kind::Fine) => record.value(),
            Some(record) => record.value().saturating_mul(10),
            None => 0,
        }
    }

    // The sum of a column's balances among the first `count` of the nine positions.
    pub fn column_sum(self, column: u64, count: usize) -> u64 {
        let mut sum: u64 = 0;
        for position in POSITIONS.iter().take(count) {
            if position.column == column {
                sum = sum.saturating_add(self.value(position.balance));
            }
        }
        sum
    }
}
