// Whole decimal numbers in a text.
ghost use Rattle.std.specs.Prelude.{◌≡◌, ◌≤◌, length};
ghost use Rattle.std.specs.List.{prefix_len};
ghost use Rattle.std.specs.Char.{is_ascii_digit};
ghost use Rattle.text_numerals.specs.Numerals.{byte_at, number_end};
ghost use Rattle.text_numerals.specs.Inner.Fields.{whole_of, field_at};

// A number, and the index behind its separator.
#[derive(Clone, Copy, Debug, PartialEq, Eq)]
pub struct Field {
    pub value: u64,
    pub next: usize,
}

// The number at an index, where it is followed by its separator.
#[tactic(auto, using(crate::proofs::LineLaws::field_none, crate::proofs::LineLaws::field_large, crate::proofs::LineLaws::field_other, crate::proofs::LineLaws::field_read, crate::proofs::NumeralLaws::number_end_le))]
pub(crate) fn read_number(text: &[u8], at: usize, separator: u8) -> Option<Field>
    ensures { result ≡ field_at text.now at separator }
{
    let end = number_end(text, at);
    if end <= at {
        return None;
    }
    let value = digits_value(text, at, end)?;
    if byte_at(text, end) != separator {
        return None;
    }
    Some(Field {
        value,
        next: end + 1,
    })
}

// The first index from another on where no digit stands.
fn number_end(text: &[u8], at: usize) -> usize
    ensures { result ≡ number_end text.now at }
{
    at + leading_digits(&text[at.min(text.len())..])
}

// How many digits stand before the first other byte.
fn leading_digits(bytes: &[u8]) -> usize
    ensures { result ≡ prefix_len is_ascii_digit bytes.now }
{
    bytes
        .iter()
        .take_while(|byte| byte.is_ascii_digit())
        .count()
}

// The value of the digits from an index to another, where it is below 2^64.
fn digits_value(text: &[u8], at: usize, end: usize) -> Option<u64>
    requires at_le_end { at ≤ end }
    requires end_in_bounds { end ≤ length text.now }
    ensures { result ≡ whole_of text.now at end }
{
    let mut value: u64 = 0;
    for byte in &text[at..end] {
        let digit = byte.saturating_sub(b'0');
        value = value.checked_mul(10)?.checked_add(u64::from(digit))?;
    }
    Some(value)
}

// The byte at an index; past the end a line feed.
#[tactic(auto, using(std::proofs::lemmas::Grind::common_steps), unfolding(crate::specs::Numerals::byte_at))]
pub fn byte_at(text: &[u8], i: usize) -> u8
    ensures { result ≡ byte_at text.now i }
{
    text.get(i).copied().unwrap_or(b'\n')
}
