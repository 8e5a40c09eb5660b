// The monthly survival q of an annual withdrawal w in thousandths: the largest whole q with
// q^12 × 1,000 ≤ (1,000 - w) × 10^108. The power is written out in 13 digits of base 10^9, lowest
// first, so that the right-hand side is the digit 1,000 - w above twelve zeros.

const BASE: u64 = 1000000000;

// The survivals of the annual withdrawals 0 to 600.
pub fn survivals() -> [u64; 601] {
    std::array::from_fn(|w| survival(1000usize.saturating_sub(w) as u64))
}

// q for what stays in a year, 1,000 - w, found from its highest binary digit down: a digit is kept
// where the power is still below the right-hand side. It meets it only for q = 10^9, where all stays,
// since q^12 has to bring 105 factors 2 and 105 factors 5.
fn survival(stays: u64) -> u64 {
    if stays == 1000 {
        return BASE;
    }
    let mut q: u64 = 0;
    let mut digit: u64 = 1 << 29;
    for _ in 0..30 {
        let raised = q.saturating_add(digit);
        if highest_digit(raised) < stays {
            q = raised;
        }
        digit /= 2;
    }
    q
}

// The highest of the thirteen digits of q^12 × 1,000, for q under 2^30. Each of twelve rounds
// multiplies the digits by q and carries what is past the digit before; nothing is carried out of the
// last.
fn highest_digit(q: u64) -> u64 {
    let mut digits: [u64; 13] = [1000, 0, 0, 0, 0, 0, 0, 0, 0, 0, 0, 0, 0];
    for _ in 0..12 {
        let mut carried = 0;
        for digit in digits.iter_mut() {
            let raised = digit.saturating_mul(q).saturating_add(carried);
            *digit = raised % BASE;
            carried = raised / BASE;
        }
    }
    digits[12]
}
