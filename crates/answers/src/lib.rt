// The refusals of a filing, of a list of certificates, of a change of a book and of price lines, with the paper's number and the location of each. An answer is a
// `Result`: what was asked for, or the first refusal.
#![tactic(auto)]

ghost use Rattle.std.specs.Prelude.{◌≡◌};
ghost use Rattle.answers.specs.Answers.{number_of, location_of};

// A refusal, at its location.
#[derive(Clone, Copy, Debug, PartialEq, Eq)]
pub enum Refusal {
    // At the record's offset; OverLimit of a certificate at its index.
    RecordIncomplete(usize),
    RecordMisshapen(usize),
    CellUnlisted(usize),
    Repeated(usize),
    PathBesideFlat(usize),
    AmendmentRepeated(usize),
    OverLimit(usize),
    TiersUnsound(usize),
    // At the input's length.
    SheetMissing(usize),
    LiborMissing(usize),
    // At the cell.
    CouponOutsideClass(usize),
    MonthsOutsideRow(usize),
    AboveColumnSum(usize),
    TotalDiffers(usize),
    // At the list's length.
    ListTooShort(usize),
    // At the certificate's index.
    NoSuchDay(usize),
    NotOutstanding(usize),
    TooManyMonths(usize),
    // At the place of the thirty-six.
    OutsidePlaceLimits(usize),
    // At the price line's index.
    LineFaulty(usize),
}

impl Refusal {
    // The paper's number of the refusal.
    pub fn number(self) -> u64
        ensures { result ≡ number_of self }
    {
        match self {
            Refusal::RecordIncomplete(_) => 1,
            Refusal::RecordMisshapen(_) => 2,
            Refusal::CellUnlisted(_) => 3,
            Refusal::Repeated(_) => 4,
            Refusal::PathBesideFlat(_) => 12,
            Refusal::AmendmentRepeated(_) => 16,
            Refusal::OverLimit(_) => 5,
            Refusal::TiersUnsound(_) => 11,
            Refusal::SheetMissing(_) => 6,
            Refusal::LiborMissing(_) => 18,
            Refusal::CouponOutsideClass(_) => 19,
            Refusal::MonthsOutsideRow(_) => 7,
            Refusal::AboveColumnSum(_) => 8,
            Refusal::TotalDiffers(_) => 9,
            Refusal::ListTooShort(_) => 10,
            Refusal::NoSuchDay(_) => 13,
            Refusal::NotOutstanding(_) => 14,
            Refusal::TooManyMonths(_) => 15,
            Refusal::OutsidePlaceLimits(_) => 17,
            Refusal::LineFaulty(_) => 21,
        }
    }

    // The location of the refusal: the record's offset, the cell, the certificate, the place, the price line, or the length of what is too short.
    pub fn location(self) -> usize
        ensures { result ≡ location_of self }
    {
        match self {
            Refusal::RecordIncomplete(at) => at,
            Refusal::RecordMisshapen(at) => at,
            Refusal::CellUnlisted(at) => at,
            Refusal::Repeated(at) => at,
            Refusal::PathBesideFlat(at) => at,
            Refusal::AmendmentRepeated(at) => at,
            Refusal::OverLimit(at) => at,
            Refusal::TiersUnsound(at) => at,
            Refusal::SheetMissing(size) => size,
            Refusal::LiborMissing(size) => size,
            Refusal::CouponOutsideClass(cell) => cell,
            Refusal::MonthsOutsideRow(cell) => cell,
            Refusal::AboveColumnSum(cell) => cell,
            Refusal::TotalDiffers(cell) => cell,
            Refusal::ListTooShort(size) => size,
            Refusal::NoSuchDay(certificate) => certificate,
            Refusal::NotOutstanding(certificate) => certificate,
            Refusal::TooManyMonths(certificate) => certificate,
            Refusal::OutsidePlaceLimits(place) => place,
            Refusal::LineFaulty(line) => line,
        }
    }
}
