// The arguments of the program.
ghost use Rattle.std.specs.Prelude.{◌≡◌};
ghost use Rattle.text_quote.specs.Arguments.{argument_of};

use text_numerals::number_lines::read_line;

// A number in digits, where nothing stands behind them.
#[tactic(auto, using(crate::proofs::ArgumentLaws::argument_none, crate::proofs::ArgumentLaws::argument_longer, crate::proofs::ArgumentLaws::argument_read))]
pub(crate) fn argument_of(text: &[u8]) -> Option<u64>
    ensures { result ≡ argument_of text.now }
{
    let line = read_line(text, 0, b"\n")?;
    if line.next <= text.len() {
        return None;
    }
    Some(line.numbers[0])
}
