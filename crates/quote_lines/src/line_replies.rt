// The reply of lines that are not faulty.
ghost use Rattle.std.specs.Prelude.{◌≡◌, ◌≤◌, ◌<◌, MatchOption, length};
ghost use Rattle.quote_lines.specs.Lines.{line_count, lines_of};
ghost use Rattle.quote_lines.specs.Replies.{reached_line, reply_of};

use crate::{Lines, Reply};
use form::sub_balances::SCENARIOS;

impl Lines<'_> {
    // By the first line that reaches the month: its own price, or that between it and the line before.
    pub(crate) fn reply(&self, month: u64, scenario: u64) -> Reply
        ensures { result ≡ reply_of (lines_of self.now.months.now self.now.prices.now) month scenario }
    {
        if SCENARIOS as u64 <= scenario {
            return Reply::Outside;
        }
        let Some(i) = self.reached(month) else {
            return Reply::Outside;
        };
        let line = self.line(i);
        if u64::from(line.months) == month {
            return Reply::Listed(line.prices[scenario as usize]);
        }
        if i == 0 {
            return Reply::Outside;
        }
        let before = self.line(i - 1);
        Reply::Between(before.price_between(&line, month as u16, scenario as usize))
    }

    // The first line whose months are at least the month.
    fn reached(&self, month: u64) -> Option<usize>
        ensures { MatchOption result (line_count self.now.months.now self.now.prices.now ≤ reached_line (lines_of self.now.months.now self.now.prices.now) month) (λ i. (i < line_count self.now.months.now self.now.prices.now) × (i ≡ reached_line (lines_of self.now.months.now self.now.prices.now) month)) }
    {
        self.months[..self.count()]
            .iter()
            .position(|months| month <= u64::from(*months))
    }
}
