// The certificates in turn: each is tested, and added to the sums of its position.
ghost use Rattle.std.specs.Prelude.{◌≡◌, ◌≤◌, ◌<◌, ◌+◌, ◌*◌, IfOk, get_or};
ghost use Rattle.form.specs.Limits.{balance_limit, filed_coupon_limit, months_limit};
ghost use Rattle.answers.specs.Answers.{verdict_of};
ghost use Rattle.certificate_terms.specs.Terms.{certificate_count};
ghost use Rattle.certificates.specs.EachVerdict.{each_verdict};
ghost use Rattle.certificates.specs.Sums.{totals_of};
ghost use Rattle.certificates.specs.Inner.Totals.{totals_with};

use answers::Refusal;
use certificate_calendar::Date;
use certificate_cells::filled_cells::Totals;
use certificate_terms::{Certificate, position_of};
use form::limits::BALANCE_LIMIT;

// The sums of the certificates, or the refusal of the first that is refused.
pub(crate) fn scan(valuation: Date, certificates: &[u64]) -> Result<Totals, Refusal>
    ensures answer_value { verdict_of result ≡ each_verdict valuation certificates.now }
    ensures totals_value { IfOk result (λ t. t ≡ totals_of valuation certificates.now (certificate_count certificates.now)) }
{
    let mut totals = Totals::default();
    for k in 0..certificates.len() / 8 {
        let certificate = Certificate::of_list(certificates, k);
        certificate.check(valuation, k)?;
        let months = valuation.months_to(certificate.maturity);
        let original = certificate.issue.months_to(certificate.maturity);
        let position = position_of(months, original);
        if BALANCE_LIMIT < totals.balance[position] + certificate.balance {
            return Err(Refusal::OverLimit(k));
        }
        add(&mut totals, position, months, certificate);
    }
    Ok(totals)
}

// Adds a certificate to the sums of its position.
fn add(totals: &mut Totals, position: usize, months: u64, certificate: Certificate)
    requires position_bound { position < 9 }
    requires coupon_le_filed_coupon_limit { (certificate.coupon ≤ filed_coupon_limit) × (months ≤ months_limit) }
    requires balance_bound { get_or totals.old.balance position 0 + certificate.balance ≤ balance_limit }
    requires position_bound_2 { get_or totals.old.coupon position 0 ≤ filed_coupon_limit * get_or totals.old.balance position 0 }
    requires position_bound_3 { get_or totals.old.months position 0 ≤ months_limit * get_or totals.old.balance position 0 }
    ensures { totals.new ≡ totals_with totals.old position months certificate.balance certificate.coupon }
{
    let balance = certificate.balance;
    totals.balance[position] += balance;
    totals.coupon[position] += balance * certificate.coupon;
    totals.months[position] += balance * months;
}
