// A text of lines: the valuation date, then a certificate a line.
mod lines;

ghost use Rattle.std.specs.Prelude.{◌+◌, ◌*◌, ◌≤◌, length};
ghost use Rattle.arrayvec.specs.ArrayVec.{array_vec_len};
ghost use Rattle.text_certificates.specs.Texts.{TextRead};

use crate::certificates_input::lines::{certificate_line, date_line};
use arrayvec::ArrayVec;
use certificate_calendar::Date;

// The first line that is not of its form, counted from 1.
#[derive(Clone, Copy, Debug, PartialEq, Eq)]
pub struct Unreadable {
    pub line: usize,
}

// Reads a text: its valuation date, where each line has its form. The numbers of the certificates before the first line that has not are appended to
// those given, where each number has room: it takes at least two bytes of the text.
pub(crate) fn read_text<const CAP: usize>(
    text: &[u8],
    certificates: &mut ArrayVec<u64, CAP>,
) -> Result<Date, Unreadable>
    requires { 2 * array_vec_len certificates.old + length text.now + 1 ≤ 2 * CAP }
    ensures { TextRead text.now certificates.old.items certificates.new.items result }
{
    let Some(first) = date_line(text, 0) else {
        return Err(Unreadable { line: 1 });
    };
    let mut lines = 1;
    let mut next = first.next;
    // A line's length moves the offset, and not a count.
    while next < text.len() {
        let Some(certificate) = certificate_line(text, next) else {
            return Err(Unreadable { line: lines + 1 });
        };
        certificates
            .try_extend_from_slice(&certificate.numbers)
            .unwrap();
        lines += 1;
        next = certificate.next;
    }
    Ok(Date {
        year: first.numbers[0],
        month: first.numbers[1],
        day: first.numbers[2],
    })
}
