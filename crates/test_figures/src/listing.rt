// The text of the listing.
use std::io;

// Prints what the listing prints of an input: seven lines, a refusal, or that it is longer than 65,536 bytes.
pub(crate) fn print_listing(rt: &impl Print, input: &[u8]) -> io::Result<()> {
    test_lines::output::text(rt, text_listing::write_listing(input).as_slice())
}
