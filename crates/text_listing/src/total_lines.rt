// The lines of the seven scenarios, of a list that holds their totals.
ghost use Rattle.std.specs.Prelude.{◌≡◌, ◌+◌, ◌*◌, ◌≤◌, ◌<◌, ◌++◌, length};
ghost use Rattle.arrayvec.specs.ArrayVec.{array_vec_len};
ghost use Rattle.form.specs.Shift.{scenario_count};
ghost use Rattle.text_listing.specs.TotalLines.{line_in, lines_in};

use arrayvec::ArrayVec;
use form::sub_balances::SCENARIOS;
use text::lines::{append_difference, append_line};

// The lines of the seven scenarios, whose totals, `each` of them in a scenario, stand in the numbers from an index on: the arguments of `lines_in`.
#[tactic(auto, using(std::proofs::lemmas::Grind::common_steps, crate::proofs::TotalLineLaws::lines_next, crate::proofs::TotalLineLaws::lines_end))]
pub fn append_scenarios<const CAP: usize>(
    text: &mut ArrayVec<u8, CAP>,
    numbers: &[u64],
    from: usize,
    each: usize,
)
    requires { (each ≤ 4) × (array_vec_len text.old + 623 ≤ CAP) × (from + each * scenario_count ≤ length numbers.now) }
    ensures lines { text.new.items ≡ text.old.items ++ lines_in numbers.now from each }
    ensures short { array_vec_len text.new ≤ array_vec_len text.old + 623 }
{
    for scenario in 0..SCENARIOS {
        append_scenario(text, numbers, from, each, scenario);
    }
}

// The line of a scenario: its shift and its totals.
#[tactic(auto, using(std::proofs::lemmas::Grind::common_steps, crate::proofs::TotalLineLaws::line_is))]
fn append_scenario<const CAP: usize>(
    text: &mut ArrayVec<u8, CAP>,
    numbers: &[u64],
    from: usize,
    each: usize,
    scenario: usize,
)
    requires { (array_vec_len text.old + length (line_in numbers.now from each scenario) ≤ CAP) × (each ≤ 4) × (from + each * scenario_count ≤ length numbers.now) × (scenario < scenario_count) }
    ensures { text.new.items ≡ text.old.items ++ line_in numbers.now from each scenario }
{
    append_difference(text, 100 * scenario as u64, 300);
    let first = from + each * scenario;
    append_line(text, &numbers[first..first + each]);
}
