// Reads a filing from standard input and prints the totals of its borrowings: a line for each scenario, the line of a refusal, or `too long`. One byte more than
// the 65,536 of a filing is read, so that a longer input shows.
#![tactic(auto)]

use std::io;
use text_input::read_full;
use text_listing::borrowings::write_borrowings_read;

fn main(rt: HostRuntime) -> io::Result<()> {
    let mut input = [0u8; 65537];
    let n = read_full(&mut rt.stdin(), &mut input);
    rt.write_all(write_borrowings_read(&input, n).as_slice())
}
