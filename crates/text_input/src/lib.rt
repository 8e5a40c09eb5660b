// What a program reads, as of standard input: as many bytes as there is room for, or a line. `step` says what the next byte makes of a line; `next_line` only
// reads the bytes and hands each on to it. A read that fails is the end of the input.
#![tactic(auto)]

ghost use Rattle.std.specs.Prelude.{◌≡◌, ◌≤◌, Some, length, take};
ghost use Rattle.std.specs.Io.KnownBytes.{Consumes};
ghost use Rattle.std.specs.Option.{option_to_list};
ghost use Rattle.text_input.specs.Lines.{with_kept, step_of, LineRead};

use std::io::Read;

// What is read of a line so far: how many of its bytes are kept, where there is a line, and whether it goes on or has ended.
#[derive(Clone, Copy)]
pub enum Reading {
    Going(Option<usize>),
    Ended(Option<usize>),
}

// Reads until the lent bytes are full or the input ends, and answers how many were read to their front. Of an input whose bytes are known these are its next.
pub fn read_full<R: Read>(input: &mut R, bytes: &mut [u8]) -> usize
    ensures within { result ≤ length bytes.new }
    ensures read { Consumes (R.remaining input.old) (R.remaining input.new) (take result bytes.new) }
{
    let mut done = 0;
    for _ in 0..u64::MAX {
        if bytes.len() <= done {
            break;
        }
        match input.read(&mut bytes[done..]) {
            Ok(0) | Err(_) => break,
            Ok(n) => done += n,
        }
    }
    done
}

// Reads the next line without its line feed to the front of the lent bytes, and answers how many of its bytes are kept: of a longer line only those that
// there is room for. None where the input is at its end: then nothing is read. Nothing is read behind the line feed.
#[tactic(auto, using(crate::proofs::LineLaws::line_start, crate::proofs::LineLaws::line_going, crate::proofs::LineLaws::line_end))]
pub fn next_line<R: Read>(input: &mut R, line: &mut [u8]) -> Option<usize>
    ensures { LineRead (R.remaining input.old) (R.remaining input.new) line.old result line.new }
{
    let mut kept = None;
    for _ in 0..u64::MAX {
        let next = next_byte(input);
        match step(line, Reading::Going(kept), next) {
            Reading::Going(more) => kept = more,
            Reading::Ended(all) => return all,
        }
    }
    kept
}

// A line after the next byte of the input, or after the input's end. The line feed and the end complete it, and nothing else does; a complete line stays as
// it is.
#[tactic(auto, using(crate::proofs::LineLaws::step_stays, crate::proofs::LineLaws::step_end, crate::proofs::LineLaws::step_feed, crate::proofs::LineLaws::step_byte), unfolding(crate::specs::Lines::step_of))]
fn step(line: &mut [u8], reading: Reading, next: Option<u8>) -> Reading
    ensures { record { line = line.new; reading = result } ≡ step_of (record { line = line.old; reading = reading }) next }
{
    let Reading::Going(kept) = reading else {
        return reading;
    };
    match next {
        None => Reading::Ended(kept),
        Some(b'\n') => Reading::Ended(Some(kept.unwrap_or(0))),
        Some(byte) => Reading::Going(Some(keep(line, kept.unwrap_or(0), byte))),
    }
}

// Keeps a byte behind those that are kept, where there is room, and answers how many are kept then.
#[tactic(auto, unfolding(crate::specs::Lines::with_kept))]
fn keep(line: &mut [u8], size: usize, byte: u8) -> usize
    ensures { record { line = line.new; kept = Some result } ≡ with_kept line.old size byte }
{
    if line.len() <= size {
        return size;
    }
    line[size] = byte;
    size + 1
}

// The next byte of an input, where it is not at its end.
fn next_byte<R: Read>(input: &mut R) -> Option<u8>
    ensures { Consumes (R.remaining input.old) (R.remaining input.new) (option_to_list result) }
{
    let mut byte = [0];
    match read_full(input, &mut byte) {
        0 => None,
        _ => Some(byte[0]),
    }
}
