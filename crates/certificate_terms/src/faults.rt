// What can be wrong with a certificate by itself: 5, 13, 14 and 15, in that order.
ghost use Rattle.std.specs.Prelude.{◌≡◌, true};
ghost use Rattle.answers.specs.Answers.{verdict_of};
ghost use Rattle.certificate_calendar.specs.Dates.{is_date};
ghost use Rattle.certificate_terms.specs.Faults.{over_limit, no_such_day, not_outstanding, own_verdict};

use crate::Certificate;
use answers::Refusal;
use certificate_calendar::Date;
use form::limits::{BALANCE_LIMIT, FILED_COUPON_LIMIT, MONTHS_LIMIT};

impl Certificate {
    // The first fault of this certificate by itself, which is number k of the list.
    #[tactic(auto, unfolding(crate::specs::Faults::own_verdict, crate::specs::Faults::no_such_day, crate::specs::Faults::too_many_months, answers::specs::Verdict::first_of, answers::specs::Verdict::first_refusal, answers::specs::Verdict::refused_if, answers::specs::Verdict::refused, answers::specs::Verdict::accepted))]
    pub fn check(self, valuation: Date, k: usize) -> Result<(), Refusal>
        ensures { verdict_of result ≡ own_verdict valuation k self }
    {
        if self.is_over_limit() {
            return Err(Refusal::OverLimit(k));
        }
        if self.has_no_such_day(valuation) {
            return Err(Refusal::NoSuchDay(k));
        }
        if self.is_not_outstanding(valuation) {
            return Err(Refusal::NotOutstanding(k));
        }
        if MONTHS_LIMIT < valuation.months_to(self.maturity) {
            return Err(Refusal::TooManyMonths(k));
        }
        Ok(())
    }

    // A balance or coupon past its limit.
    #[tactic(auto, unfolding(crate::specs::Faults::over_limit))]
    fn is_over_limit(self) -> bool
        ensures { result ≡ over_limit self }
    {
        BALANCE_LIMIT < self.balance || FILED_COUPON_LIMIT < self.coupon
    }

    // A date that is no day of 1900 to 2199.
    #[tactic(auto, unfolding(crate::specs::Faults::no_such_day))]
    fn has_no_such_day(self, valuation: Date) -> bool
        ensures { result ≡ no_such_day valuation self }
    {
        !valuation.is_day() || !self.issue.is_day() || !self.maturity.is_day()
    }

    // An issue after the valuation date, or a maturity not after it.
    #[tactic(auto, unfolding(crate::specs::Faults::not_outstanding))]
    fn is_not_outstanding(self, valuation: Date) -> bool
        requires valuation_value { is_date valuation ≡ true }
        requires issue_value { is_date self.issue ≡ true }
        requires maturity_value { is_date self.maturity ≡ true }
        ensures { result ≡ not_outstanding valuation self }
    {
        !valuation.is_on_or_after(self.issue) || valuation.is_on_or_after(self.maturity)
    }
}
