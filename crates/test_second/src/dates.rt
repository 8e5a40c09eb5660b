// Days of the Gregorian calendar, and months between them.
use crate::bytes::number;

// A day of the years 1900 to 2199. Its month is counted through the years, year × 12 + 1 to 12.
#[derive(Clone, Copy, Debug, PartialEq, Eq, PartialOrd, Ord)]
pub struct Day {
    month: u64,
    day: u64,
}

impl Day {
    // The day whose year, month and day stand at `at`, 8 bytes each.
    pub fn read(s: &[u8], at: usize) -> Option<Day> {
        let year = number(s, at, 8);
        let month = number(s, at.saturating_add(8), 8);
        let day = number(s, at.saturating_add(16), 8);
        if year < 1900 || 2199 < year || day < 1 || last_day(year, month) < day {
            return None;
        }
        let month = year.saturating_mul(12).saturating_add(month);
        Some(Day { month, day })
    }

    // The least number of months, from 1 on, by which the day must be moved on to reach another.
    pub fn months_to(self, other: Day) -> u64 {
        (1..3600)
            .find(|months| other <= self.moved(*months))
            .unwrap_or(3600)
    }

    // The day moved on by some months; one that the month lacks becomes its last day.
    fn moved(self, months: u64) -> Day {
        let month = self.month.saturating_add(months);
        let before = month.saturating_sub(1);
        let last = last_day(before / 12, before % 12 + 1);
        Day {
            month,
            day: self.day.min(last),
        }
    }
}

// The last day of a month; 0 where there is no such month.
fn last_day(year: u64, month: u64) -> u64 {
    let is_leap = year % 4 == 0 && (year % 100 != 0 || year % 400 == 0);
    match month {
        2 if is_leap => 29,
        2 => 28,
        4 | 6 | 9 | 11 => 30,
        1..=12 => 31,
        _ => 0,
    }
}
