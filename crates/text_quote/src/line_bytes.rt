// Price lines in bytes: months in 2 bytes, then seven prices in 8 bytes each, little-endian.
ghost use Rattle.std.specs.Prelude.{◌≡◌, ◌+◌, ◌*◌, ◌≤◌, ◌++◌, length};
ghost use Rattle.arrayvec.specs.ArrayVec.{array_vec_len};
ghost use Rattle.std.specs.Float.{binary64};
ghost use Rattle.std.specs.Float.Ieee.{of_bits};
ghost use Rattle.lists.specs.Tables.{table};
ghost use Rattle.form.specs.Shift.{scenario_count};
ghost use Rattle.quote_lines.specs.Promise.{QuotedAs};
ghost use Rattle.text.specs.Lines.{filing_limit};
ghost use Rattle.text_quote.specs.LineBytes.{line_bytes, months_in, price_at, lines_in};

use answers::Refusal;
use arrayvec::ArrayVec;
use form::sub_balances::SCENARIOS;
use quote_lines::{Reply, quote};
use record_fields::field_within;

// The bytes of a line.
pub const LINE_BYTES: usize = 58;

// The most lines and prices in 65,536 bytes.
const MOST_LINES: usize = 1129;

const MOST_PRICES: usize = 7903;

// What the whole lines in the bytes reply.
pub fn quote_bytes(lines: &[u8], month: u64, scenario: u64) -> Result<Reply, Refusal>
    requires { length lines.now ≤ filing_limit }
    ensures { QuotedAs (lines_in lines.now) month scenario result }
{
    let count = lines.len() / LINE_BYTES;
    let mut months: ArrayVec<u16, MOST_LINES> = ArrayVec::new();
    let mut prices: ArrayVec<f64, MOST_PRICES> = ArrayVec::new();
    read_months(lines, count, &mut months);
    read_prices(lines, count, &mut prices);
    quote(months.as_slice(), prices.as_slice(), month, scenario)
}

// The months of the first lines.
fn read_months<const CAP: usize>(lines: &[u8], count: usize, months: &mut ArrayVec<u16, CAP>)
    requires { (line_bytes * count ≤ length lines.now) × (array_vec_len months.old + count ≤ CAP) }
    ensures { months.new.items ≡ months.old.items ++ table count (months_in lines.now) }
{
    for i in 0..count {
        months.push(field_within(lines, LINE_BYTES * i, 0, 2) as u16);
    }
}

// The prices of the first lines, seven of each.
fn read_prices<const CAP: usize>(lines: &[u8], count: usize, prices: &mut ArrayVec<f64, CAP>)
    requires { (line_bytes * count ≤ length lines.now) × (array_vec_len prices.old + scenario_count * count ≤ CAP) }
    ensures { prices.new.items ≡ prices.old.items ++ table (scenario_count * count) (price_at lines.now) }
{
    for i in 0..SCENARIOS * count {
        let bits = field_within(
            lines,
            LINE_BYTES * (i / SCENARIOS),
            2 + 8 * (i % SCENARIOS),
            8,
        );
        prices.push(float_of(bits));
    }
}

// The float of a bit pattern: any pattern of what is not a number gives the one that is none.
fn float_of(bits: u64) -> f64
    ensures { result ≡ of_bits binary64 bits }
{
    if 0x7ff0_0000_0000_0000 < bits % 0x8000_0000_0000_0000 {
        return 0.0 / 0.0;
    }
    f64::from_bits(bits)
}
