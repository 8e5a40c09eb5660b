// The entries of standard input, and what is printed of each.
use crate::book::print_book;
use crate::conversion::print_certificates;
use crate::listing::print_listing;
use crate::search::print_search;
use crate::split::print_splitting;
use crate::values::{print_both, print_valuing};
use std::io;
use std::io::Read;
use test_lines::output::{end_line, next_number, text};
use text_input::read_full;

// The longest input, a byte more than the listing takes.
const ROOM: usize = 65537;

// The head of an entry: the number of a call, the length of its first list, that of its second list and that of its input.
#[derive(Clone, Copy)]
struct Entry {
    call: usize,
    first: usize,
    second: usize,
    size: usize,
}

// Prints each entry, counted from 0.
pub(crate) fn print_entries<R: Print, I: Read>(rt: &R, input: &mut I) -> io::Result<()> {
    for i in 0..u64::MAX {
        if !print_entry(rt, input, i)? {
            break;
        }
    }
    Ok(())
}

// Prints entry i; false where there is none.
fn print_entry<R: Print, I: Read>(rt: &R, input: &mut I, i: u64) -> io::Result<bool> {
    let Some(entry) = next_entry(input) else {
        return Ok(false);
    };
    text(rt, b"entry")?;
    next_number(rt, i)?;
    end_line(rt)?;
    let mut room = [0u8; ROOM];
    if let Some(bytes) = room.get_mut(..entry.size) {
        let n = read_full(input, bytes);
        print_call(rt, &bytes[..n], entry)?;
    }
    Ok(true)
}

// The head of the next entry: nothing where the input ends before it does.
fn next_entry<I: Read>(input: &mut I) -> Option<Entry> {
    let call = next_size(input)?;
    let first = next_size(input)?;
    let second = next_size(input)?;
    let size = next_size(input)?;
    Some(Entry {
        call,
        first,
        second,
        size,
    })
}

// The number that the next 4 bytes spell, nothing where there are fewer.
fn next_size<I: Read>(input: &mut I) -> Option<usize> {
    let mut bytes = [0u8; 4];
    if read_full(input, &mut bytes) < 4 {
        return None;
    }
    Some(u32::from_le_bytes(bytes) as usize)
}

// Call 0 values the input with a list of `first` numbers and splits it into a list of `second` places; call 1 lists it; call 2 searches a tier; call 3
// makes cells of certificates; call 4 keeps a book; call 5 values certificates and borrowings with lists of `first` and of `second` numbers.
fn print_call(rt: &impl Print, input: &[u8], entry: Entry) -> io::Result<()> {
    match entry.call {
        0 => {
            print_valuing(rt, input, entry.first)?;
            print_splitting(rt, input, entry.second)
        }
        1 => print_listing(rt, input),
        2 => print_search(rt, input),
        3 => print_certificates(rt, input),
        4 => print_book(rt, input),
        5 => print_both(rt, input, entry.first, entry.second),
        call => {
            text(rt, b"no call")?;
            next_number(rt, call as u64)?;
            end_line(rt)
        }
    }
}
