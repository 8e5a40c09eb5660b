// Days of the Gregorian years 1900 to 2199, their order, and the months between them.
#![tactic(auto)]

ghost use Rattle.std.specs.Prelude.{◌≡◌, true, cond};
ghost use Rattle.certificate_calendar.specs.Dates.{is_leap, last_day, is_date, month_index, on_or_after, months_between};
ghost use Rattle.certificate_calendar.specs.Inner.Days.{Day};

// A date as it is written; not every one is a day of the calendar.
#[derive(Clone, Copy, Debug, PartialEq, Eq, PartialOrd, Ord)]
pub struct Date {
    pub year: u64,
    pub month: u64,
    pub day: u64,
}

impl Date {
    // The least number of months, at least 1, by which this date is moved on to or past another. A day that the month lacks becomes its last
    // one, which the other date cannot be after: so the days themselves are compared.
    pub fn months_to(self, other: Date) -> u64
        requires from_value { is_date self ≡ true }
        requires to_value { is_date other ≡ true }
        ensures { result ≡ months_between self other }
    {
        let end = other.month_index() + u64::from(self.day < other.day);
        end.saturating_sub(self.month_index()).max(1)
    }

    // This date is on or after another.
    pub fn is_on_or_after(self, other: Date) -> bool
        requires a_value { is_date self ≡ true }
        requires b_value { is_date other ≡ true }
        ensures { result ≡ on_or_after self other }
    {
        other <= self
    }

    // A date's month, counted through the years.
    fn month_index(self) -> u64
        requires { Day self }
        ensures { result ≡ month_index self }
    {
        12 * self.year + (self.month - 1)
    }

    // A day of the Gregorian years 1900 to 2199.
    #[tactic(auto, unfolding(crate::specs::Dates::is_date, lists::specs::Ranges::within))]
    pub fn is_day(self) -> bool
        ensures { result ≡ is_date self }
    {
        (1900..=2199).contains(&self.year)
            && (1..=12).contains(&self.month)
            && (1..=last_day(self.year, self.month)).contains(&self.day)
    }
}

// The last day of a month, 1 to 12; 0 for another number.
#[tactic(auto, unfolding(crate::specs::Dates::last_day))]
fn last_day(year: u64, month: u64) -> u64
    ensures { result ≡ last_day year month }
{
    match month {
        4 | 6 | 9 | 11 => 30,
        2 => if is_leap(year) { 29 } else { 28 },
        1..=12 => 31,
        _ => 0,
    }
}

// A year of 366 days.
#[tactic(auto, unfolding(crate::specs::Dates::is_leap))]
fn is_leap(year: u64) -> bool
    ensures { result ≡ is_leap year }
{
    year % 4 == 0 && (year % 100 != 0 || year % 400 == 0)
}
