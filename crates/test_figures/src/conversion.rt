// Certificates to cells: the answer, and the cells that come back.
use arrayvec::ArrayVec;
use certificate_calendar::Date;
use certificates::to_cells;
use std::io;
use test_lines::cells::print_cells;
use test_lines::input::number_at;

// As many numbers as the longest input has.
const NUMBERS: usize = 8192;

// An input has numbers of 8 bytes: year, month and day of the valuation date, and eight for each certificate.
pub(crate) fn print_certificates(rt: &impl Print, input: &[u8]) -> io::Result<()> {
    let valuation = Date {
        year: number_at(input, 0),
        month: number_at(input, 8),
        day: number_at(input, 16),
    };
    let mut numbers: ArrayVec<u64, NUMBERS> = ArrayVec::new();
    if let Some(certificates) = input.get(24..) {
        for number in certificates.chunks_exact(8).take(NUMBERS) {
            let _ = numbers.try_push(number_at(number, 0));
        }
    }
    print_cells(rt, to_cells(valuation, numbers.as_slice()))
}
