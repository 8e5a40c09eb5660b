// The line of a refusal.
ghost use Rattle.std.specs.Prelude.{◌≡◌, ◌+◌, ◌≤◌, ◌++◌, length};
ghost use Rattle.answers.specs.Answers.{number_of, location_of};
ghost use Rattle.arrayvec.specs.ArrayVec.{array_vec_len};
ghost use Rattle.text.specs.Lines.{refusal_line};

use crate::lines::append_refusal;
use answers::Refusal;
use arrayvec::ArrayVec;

// The number of a refusal and its location: 50 bytes at most.
#[tactic(auto, using(std::proofs::lemmas::Grind::common_steps, crate::proofs::LineLaws::refusal_short))]
pub fn append_refused<const CAP: usize>(text: &mut ArrayVec<u8, CAP>, refusal: Refusal)
    requires { array_vec_len text.old + 50 ≤ CAP }
    ensures line { text.new.items ≡ text.old.items ++ refusal_line (number_of refusal) (location_of refusal) }
    ensures short { array_vec_len text.new ≤ array_vec_len text.old + 50 }
{
    append_refusal(text, refusal.number(), refusal.location() as u64);
}
