// 21, at the first faulty line.
ghost use Rattle.std.specs.Prelude.{◌≡◌, ◌<◌};
ghost use Rattle.answers.specs.Answers.{verdict_of};
ghost use Rattle.quote_lines.specs.Lines.{line_count, lines_of};
ghost use Rattle.quote_lines.specs.Faults.{not_rising, faulty_line, lines_verdict};

use crate::Lines;
use answers::Refusal;

// The most lines that a list may have.
const LINE_LIMIT: usize = 64;

impl Lines<'_> {
    // The lines in turn.
    pub(crate) fn check(&self) -> Result<(), Refusal>
        ensures { verdict_of result ≡ lines_verdict (lines_of self.now.months.now self.now.prices.now) }
    {
        for i in 0..self.count() {
            if self.is_faulty(i) {
                return Err(Refusal::LineFaulty(i));
            }
        }
        Ok(())
    }

    // A 65th line, months that do not rise, or a faulty price.
    fn is_faulty(&self, i: usize) -> bool
        requires { i < line_count self.now.months.now self.now.prices.now }
        ensures { result ≡ faulty_line (lines_of self.now.months.now self.now.prices.now) i }
    {
        LINE_LIMIT <= i || self.is_not_rising(i) || self.line(i).has_faulty_price()
    }

    // No more months than the line before has.
    fn is_not_rising(&self, i: usize) -> bool
        requires { i < line_count self.now.months.now self.now.prices.now }
        ensures { result ≡ not_rising (lines_of self.now.months.now self.now.prices.now) i }
    {
        i != 0 && self.months[i] <= self.months[i - 1]
    }
}
