// The calls by their numbers.
use crate::book::print_book;
use crate::bytes::number;
use crate::certificates::print_certificates;
use crate::filings::{print_both, print_listing, print_split, print_valued};
use crate::pricing::Valuation;
use crate::records::Filing;
use crate::searches::print_search;
use std::io;

// The head of an entry: the call's number, the length of its first list, that of its second and that
// of its input, 4 bytes each.
#[derive(Clone, Copy, Debug)]
pub struct Head {
    call: u64,
    first: u64,
    second: u64,
    pub length: usize,
}

impl Head {
    pub fn read(bytes: &[u8; 16]) -> Head {
        Head {
            call: number(bytes, 0, 4),
            first: number(bytes, 4, 4),
            second: number(bytes, 8, 4),
            length: number(bytes, 12, 4) as usize,
        }
    }
}

// Call 0 values and splits a filing; call 1 prints its listing; call 2 searches a tier; call 3 makes
// cells of certificates; call 4 keeps a book; call 5 values certificates and borrowings.
pub fn print_call(rt: &impl Print, s: &[u8], survivals: &[u64], head: Head) -> io::Result<()> {
    let filing = Filing { bytes: s };
    let valuation = Valuation { filing, survivals };
    let numbers = head.first.min(600);
    match head.call {
        0 => {
            print_valued(rt, valuation, numbers)?;
            print_split(rt, filing, head.second.min(40))
        }
        1 => print_listing(rt, valuation),
        2 => print_search(rt, s, survivals),
        3 => print_certificates(rt, s),
        4 => print_book(rt, s, survivals),
        5 => print_both(rt, valuation, numbers, head.second.min(400)),
        call => println!(rt; "no call {call}"),
    }
}
