// The words of a line, and the numbers behind them.
ghost use Rattle.std.specs.Prelude.{◌≡◌, ◌≤◌, length};
ghost use Rattle.text_book.specs.Commands.{is_totals, begins_with};
ghost use Rattle.text_book.specs.Inner.Said.{numbers_said};

use text_numerals::fields::byte_at;
use text_numerals::number_lines::read_line;

// The numbers behind a word, where they are of their form and end the line.
#[tactic(auto, using(crate::proofs::CommandLaws::said_other, crate::proofs::CommandLaws::said_none, crate::proofs::CommandLaws::said_short, crate::proofs::CommandLaws::said))]
pub(crate) fn numbers_behind(line: &[u8], word: &[u8], form: &[u8]) -> Option<[u64; 8]>
    requires { length form.now ≤ 8 }
    ensures { result ≡ numbers_said line.now word.now form.now }
{
    if !begins_with(line, word) {
        return None;
    }
    let read = read_line(line, word.len(), form)?;
    if read.next <= line.len() {
        return None;
    }
    Some(read.numbers)
}

// The one word `totals`.
#[tactic(auto, using(crate::proofs::CommandLaws::totals_other, crate::proofs::CommandLaws::totals_alone), unfolding(crate::specs::Commands::totals_word))]
pub(crate) fn is_totals(line: &[u8]) -> bool
    ensures { result ≡ is_totals line.now }
{
    line.len() == 6 && begins_with(line, b"totals")
}

// The line begins with a word.
#[tactic(auto, using(crate::proofs::CommandLaws::begins_next, crate::proofs::CommandLaws::begins_fails, crate::proofs::CommandLaws::begins_done))]
fn begins_with(line: &[u8], word: &[u8]) -> bool
    ensures { result ≡ begins_with line.now 0 word.now }
{
    for (i, byte) in word.iter().enumerate() {
        if byte_at(line, i) != *byte {
            return false;
        }
    }
    true
}
