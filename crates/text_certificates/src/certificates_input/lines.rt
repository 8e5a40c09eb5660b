// The two lines of a text: the valuation date, and a certificate.
ghost use Rattle.std.specs.Prelude.{◌≡◌};
ghost use Rattle.text_numerals.specs.Inner.Fields.{line_at};
ghost use Rattle.text_certificates.specs.Lines.{date_form, certificate_form};

use text_numerals::Line;
use text_numerals::number_lines::read_line;

// YEAR-MONTH-DAY.
#[tactic(auto, unfolding(crate::specs::Lines::date_form))]
pub(crate) fn date_line(text: &[u8], from: usize) -> Option<Line>
    ensures { result ≡ line_at text.now from date_form }
{
    read_line(text, from, b"--\n")
}

// YEAR-MONTH-DAY YEAR-MONTH-DAY BALANCE COUPON.
#[tactic(auto, unfolding(crate::specs::Lines::certificate_form))]
pub(crate) fn certificate_line(text: &[u8], from: usize) -> Option<Line>
    ensures { result ≡ line_at text.now from certificate_form }
{
    read_line(text, from, b"-- --  \n")
}
