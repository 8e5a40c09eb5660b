// Reads a valuation date and certificates as text from standard input and prints the cells that they fill, the line of a refusal or of an unreadable
// line, or `too long`. One byte more than the 131,072 of an input is read, so that a longer one shows.
#![tactic(auto)]

use std::io;
use text_certificates::write_read;
use text_input::read_full;

fn main(rt: HostRuntime) -> io::Result<()> {
    let mut input = [0u8; 131073];
    let n = read_full(&mut rt.stdin(), &mut input);
    rt.write_all(write_read(&input, n).as_slice())
}
