// The lines of the replies, appended to a text that has room for them.
ghost use Rattle.std.specs.Prelude.{◌≡◌, true, not, ◌++◌, ◌+◌, ◌≤◌, ◌<◌, T, length};
ghost use Rattle.std.specs.Float.{binary64};
ghost use Rattle.std.specs.Float.Ieee.{is_nan, to_bits};
ghost use Rattle.arrayvec.specs.ArrayVec.{array_vec_len};
ghost use Rattle.quote_lines.specs.Promise.{sound_reply};
ghost use Rattle.text_quote.specs.ReplyLines.{hex_digit, hexadecimal, price_line, reply_line};

use arrayvec::ArrayVec;
use quote_lines::Reply;
use text::append;

// `listed` or `between` with the price's bits, or `outside`.
pub fn append_reply<const CAP: usize>(text: &mut ArrayVec<u8, CAP>, reply: Reply)
    requires { (array_vec_len text.old + 50 ≤ CAP) × (sound_reply reply ≡ true) }
    ensures { text.new.items ≡ text.old.items ++ reply_line reply }
{
    match reply {
        Reply::Listed(price) => append_price(text, b"listed ", price),
        Reply::Between(price) => append_price(text, b"between ", price),
        Reply::Outside => append(text, b"outside\n"),
    }
}

// A word and the bits of a price.
#[tactic(auto, using(std::proofs::lemmas::Grind::common_steps, crate::proofs::HexLaws::places_length), unfolding(crate::specs::ReplyLines::price_line))]
fn append_price<const CAP: usize>(text: &mut ArrayVec<u8, CAP>, word: &[u8], price: f64)
    requires { (array_vec_len text.old + 50 ≤ CAP) × (length word.now ≤ 33) × T (not (is_nan price)) }
    ensures { text.new.items ≡ text.old.items ++ price_line word.now price }
{
    append(text, word);
    append_bits(text, f64::to_bits(price));
    text.push(b'\n');
}

// Sixteen hexadecimal digits.
#[tactic(auto, using(std::proofs::lemmas::Grind::common_steps, crate::proofs::HexLaws::places_length, crate::proofs::HexLaws::places_first, crate::proofs::HexLaws::places_none))]
fn append_bits<const CAP: usize>(text: &mut ArrayVec<u8, CAP>, bits: u64)
    requires { array_vec_len text.old + 16 ≤ CAP }
    ensures { text.new.items ≡ text.old.items ++ hexadecimal 16 bits }
{
    for place in 0..16u64 {
        text.push(hex_digit((bits >> (4 * (15 - place))) % 16));
    }
}

// A hexadecimal digit.
#[tactic(auto, using(crate::proofs::HexLaws::digit_low, crate::proofs::HexLaws::digit_high))]
fn hex_digit(d: u64) -> u8
    requires { d < 16 }
    ensures { result ≡ hex_digit d }
{
    if d < 10 {
        b'0' + d as u8
    } else {
        b'a' + (d as u8 - 10)
    }
}
