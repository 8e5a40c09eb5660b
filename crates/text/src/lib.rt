// Text that is appended to a vector of bytes, which has room for it.
#![tactic(auto)]

pub mod answer_lines;
pub mod lines;

ghost use Rattle.std.specs.Prelude.{◌≡◌, ◌+◌, ◌≤◌, ◌++◌, length};
ghost use Rattle.arrayvec.specs.ArrayVec.{array_vec_len};
ghost use Rattle.text.specs.Decimal.{decimal};
ghost use Rattle.text.specs.Lines.{unreadable_line, too_long};

use arrayvec::ArrayVec;

// A number in decimal.
pub fn append_number<const CAP: usize>(text: &mut ArrayVec<u8, CAP>, n: u64)
    requires { array_vec_len text.old + length (decimal n) ≤ CAP }
    ensures { text.new.items ≡ text.old.items ++ decimal n }
{
    append(text, digits(n).as_slice());
}

// The decimal digits of a number: the digits but the last, and the last.
#[tactic(auto, using(std::proofs::lemmas::Grind::common_steps, crate::proofs::DecimalLaws::decimal_one, crate::proofs::DecimalLaws::decimal_more, crate::proofs::DecimalLaws::decimal_front_length), unfolding(crate::specs::Decimal::digit))]
fn digits(n: u64) -> ArrayVec<u8, 20>
    ensures { result.items ≡ decimal n }
{
    let mut digits = if n < 10 {
        ArrayVec::new()
    } else {
        digits(n / 10)
    };
    digits.push(b'0' + (n % 10) as u8);
    digits
}

// Bytes as they stand.
pub fn append<const CAP: usize>(text: &mut ArrayVec<u8, CAP>, bytes: &[u8])
    requires { array_vec_len text.old + length bytes.now ≤ CAP }
    ensures { text.new.items ≡ text.old.items ++ bytes.now }
{
    text.try_extend_from_slice(bytes).unwrap();
}

// The line `unreadable`.
#[tactic(auto, unfolding(crate::specs::Lines::unreadable_line, crate::specs::Lines::unreadable_word))]
pub fn append_unreadable<const CAP: usize>(text: &mut ArrayVec<u8, CAP>)
    requires { array_vec_len text.old + 11 ≤ CAP }
    ensures { text.new.items ≡ text.old.items ++ unreadable_line }
{
    append(text, b"unreadable\n");
}

// The line `too long`.
#[tactic(auto, unfolding(crate::specs::Lines::too_long))]
pub fn append_too_long<const CAP: usize>(text: &mut ArrayVec<u8, CAP>)
    requires { array_vec_len text.old + 9 ≤ CAP }
    ensures { text.new.items ≡ text.old.items ++ too_long }
{
    append(text, b"too long\n");
}
