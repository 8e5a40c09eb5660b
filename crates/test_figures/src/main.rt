// Runs the library on the entries of standard input and prints what comes out. An entry is the number of a call, the length of its first list, that of
// its second list and that of its input, 4 bytes each, little-endian, and the input. The crate `test_second` prints the same.
#![tactic(auto)]

mod book;
mod conversion;
mod entries;
mod listing;
mod search;
mod split;
mod values;

use std::io;

fn main(rt: HostRuntime) -> io::Result<()> {
    entries::print_entries(&rt, &mut rt.stdin())
}
