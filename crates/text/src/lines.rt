// Lines of numbers that are appended to a text, which has room for them.
ghost use Rattle.std.specs.Prelude.{◌≡◌, ◌+◌, ◌≤◌, ◌∷◌, ◌++◌, length};
ghost use Rattle.std.proofs.Math.IntN.{sub_ℕ};
ghost use Rattle.arrayvec.specs.ArrayVec.{array_vec_len};
ghost use Rattle.text.specs.Decimal.{decimal, signed};
ghost use Rattle.text.specs.Lines.{rest_of_line, refusal_line};

use crate::{append, append_number};
use arrayvec::ArrayVec;

// The line of a refusal: `refused`, number and location.
#[tactic(auto, using(crate::proofs::LineLaws::refusal_length), unfolding(crate::specs::Lines::refusal_line, crate::specs::Lines::refused_word))]
pub fn append_refusal<const CAP: usize>(text: &mut ArrayVec<u8, CAP>, number: u64, location: u64)
    requires { array_vec_len text.old + length (refusal_line number location) ≤ CAP }
    ensures { text.new.items ≡ text.old.items ++ refusal_line number location }
{
    append(text, b"refused");
    append_line(text, &[number, location]);
}

// The rest of a line: the numbers of a list, each behind a space, and the line feed.
#[tactic(auto, using(std::proofs::lemmas::Grind::common_steps, crate::proofs::LineLaws::rest_number, crate::proofs::LineLaws::rest_end))]
pub fn append_line<const CAP: usize>(text: &mut ArrayVec<u8, CAP>, numbers: &[u64])
    requires { array_vec_len text.old + length (rest_of_line numbers.now) ≤ CAP }
    ensures { text.new.items ≡ text.old.items ++ rest_of_line numbers.now }
{
    for number in numbers {
        append_spaced(text, *number);
    }
    text.push(b'\n');
}

// A space and a number.
pub fn append_spaced<const CAP: usize>(text: &mut ArrayVec<u8, CAP>, n: u64)
    requires { array_vec_len text.old + length (32 ∷ decimal n) ≤ CAP }
    ensures { text.new.items ≡ text.old.items ++ (32 ∷ decimal n) }
{
    text.push(b' ');
    append_number(text, n);
}

// The difference of two numbers, with its sign where that is a minus.
#[tactic(auto, using(std::proofs::lemmas::Grind::common_steps, crate::proofs::DecimalLaws::signed_difference, crate::proofs::DecimalLaws::signed_negative))]
pub fn append_difference<const CAP: usize>(text: &mut ArrayVec<u8, CAP>, a: u64, b: u64)
    requires { array_vec_len text.old + length (signed (sub_ℕ a b)) ≤ CAP }
    ensures { text.new.items ≡ text.old.items ++ signed (sub_ℕ a b) }
{
    if a < b {
        text.push(b'-');
    }
    append_number(text, a.abs_diff(b));
}
