// The lines that a book prints, appended to a text that has room for them: the answer on a change, what a place holds, and the totals.
ghost use Rattle.std.specs.Prelude.{◌≡◌, ◌+◌, ◌++◌, ◌∷◌, [], ◌≤◌, length};
ghost use Rattle.answers.specs.Answers.{verdict_of};
ghost use Rattle.arrayvec.specs.ArrayVec.{array_vec_len};
ghost use Rattle.form.specs.Counts.{place_value_count};
ghost use Rattle.text.specs.Decimal.{decimal};
ghost use Rattle.text.specs.Lines.{rest_of_line};
ghost use Rattle.text_listing.specs.TotalLines.{lines_in};
ghost use Rattle.text_book.specs.BookLines.{opened_line, ok_line, answer_line, held_line};

use answers::Refusal;
use arrayvec::ArrayVec;
use form::sub_balances::{SubBalance, TOTALS};
use text::answer_lines::append_refused;
use text::lines::{append_line, append_spaced};
use text::{append, append_number};
use text_listing::total_lines::append_scenarios;

// The line of a filing that a book is opened under.
#[tactic(auto, unfolding(crate::specs::BookLines::opened_line))]
pub(crate) fn append_opened<const CAP: usize>(text: &mut ArrayVec<u8, CAP>)
    requires { array_vec_len text.old + 50 ≤ CAP }
    ensures { text.new.items ≡ text.old.items ++ opened_line }
{
    append(text, b"opened\n");
}

// The line of a change: `ok`, or its refusal.
pub(crate) fn append_change<const CAP: usize>(
    text: &mut ArrayVec<u8, CAP>,
    answer: Result<(), Refusal>,
)
    requires { array_vec_len text.old + 50 ≤ CAP }
    ensures { text.new.items ≡ text.old.items ++ answer_line ok_line (verdict_of answer) }
{
    match answer {
        Ok(()) => append(text, b"ok\n"),
        Err(refusal) => append_refused(text, refusal),
    }
}

// What a place holds: balance, coupon, months, penalty and fourteen values.
#[tactic(auto, using(std::proofs::lemmas::Grind::common_steps, text::proofs::DecimalLaws::decimal_length, crate::proofs::LineLaws::held_text))]
pub(crate) fn append_held<const CAP: usize>(text: &mut ArrayVec<u8, CAP>, held: &SubBalance)
    requires { array_vec_len text.old + 644 ≤ CAP }
    ensures { text.new.items ≡ text.old.items ++ held_line held.now }
{
    append_number(text, held.balance);
    append_spaced(text, held.coupon);
    append_spaced(text, held.remaining_months);
    append_spaced(text, held.penalty);
    append_values(text, &held.values);
}

// The values of a place, and the line feed.
fn append_values<const CAP: usize>(text: &mut ArrayVec<u8, CAP>, values: &[u64])
    requires { (array_vec_len text.old + 295 ≤ CAP) × (length values.now ≤ place_value_count) }
    ensures { text.new.items ≡ text.old.items ++ rest_of_line values.now }
{
    append_line(text, values);
}

// The balance total and the lines of the seven scenarios.
#[tactic(auto, using(std::proofs::lemmas::Grind::common_steps, text::proofs::DecimalLaws::decimal_length))]
pub(crate) fn append_totals<const CAP: usize>(
    text: &mut ArrayVec<u8, CAP>,
    balance: u64,
    totals: &[u64; TOTALS],
)
    requires { array_vec_len text.old + 644 ≤ CAP }
    ensures { text.new.items ≡ text.old.items ++ ((decimal balance ++ (10 ∷ [])) ++ lines_in totals.now 0 4) }
{
    append_number(text, balance);
    text.push(b'\n');
    append_scenarios(text, totals, 0, 4);
}
