// The text that the program `quote` prints: what price lines in bytes reply to a month and a scenario in digits.
#![tactic(auto)]

pub mod arguments;
pub mod line_bytes;
pub mod reply_lines;

ghost use Rattle.std.specs.Prelude.{◌≡◌, ◌≤◌, length, take};
ghost use Rattle.text.specs.Lines.{filing_limit};
ghost use Rattle.text_quote.specs.Printed.{answer_text, printed_text};

use crate::arguments::argument_of;
use crate::line_bytes::{LINE_BYTES, quote_bytes};
use crate::reply_lines::append_reply;
use arrayvec::ArrayVec;
use text::answer_lines::append_refused;
use text::{append_too_long, append_unreadable};

// The most bytes of an input.
pub const INPUT_LIMIT: usize = 65536;

// What the program reads: one byte more than an input may have, so that a longer one shows.
pub type Input = [u8; 65537];

// One line: a refusal's has 50 bytes at most, which is the longest.
pub type Printed = ArrayVec<u8, 50>;

// The text of the first `size` bytes that were read and of two arguments.
pub fn write_read(input: &Input, size: usize, month: &[u8], scenario: &[u8]) -> Printed
    ensures printed { result.items ≡ printed_text (take size input.now) month.now scenario.now }
{
    write_quote(&input[..size.min(input.len())], month, scenario)
}

// The text of lines in bytes and of two arguments.
pub fn write_quote(lines: &[u8], month: &[u8], scenario: &[u8]) -> Printed
    ensures printed { result.items ≡ printed_text lines.now month.now scenario.now }
{
    let mut text = ArrayVec::new();
    if INPUT_LIMIT < lines.len() {
        append_too_long(&mut text);
        return text;
    }
    if lines.len() % LINE_BYTES != 0 {
        append_unreadable(&mut text);
        return text;
    }
    let Some(asked_month) = argument_of(month) else {
        append_unreadable(&mut text);
        return text;
    };
    let Some(asked_scenario) = argument_of(scenario) else {
        append_unreadable(&mut text);
        return text;
    };
    write_answer(lines, asked_month, asked_scenario)
}

// The same for numbers: the reply of the whole lines in the bytes, or 21.
pub fn write_answer(lines: &[u8], month: u64, scenario: u64) -> Printed
    requires { length lines.now ≤ filing_limit }
    ensures printed { result.items ≡ answer_text lines.now month scenario }
{
    let mut text = ArrayVec::new();
    match quote_bytes(lines, month, scenario) {
        Ok(reply) => append_reply(&mut text, reply),
        Err(refusal) => append_refused(&mut text, refusal),
    }
    text
}
