// The entries of standard input. An entry is its head and its input.
ghost use Rattle.std.specs.Prelude.{◌≤◌, length};

use crate::calls::{Head, print_call};
use std::io;
use std::io::Read;

// Prints entry i; false where there is none.
pub fn print_entry<R: Print, I: Read>(
    rt: &R,
    input: &mut I,
    survivals: &[u64],
    i: u64,
) -> io::Result<bool> {
    let mut head = [0u8; 16];
    if read_full(input, &mut head) < 16 {
        return Ok(false);
    }
    println!(rt; "entry {i}")?;
    let mut room = [0u8; 65537];
    print_input(rt, input, &mut room, survivals, Head::read(&head))?;
    Ok(true)
}

// Reads an input into the first bytes of the room, and prints what the call answers.
fn print_input<R: Print, I: Read>(
    rt: &R,
    input: &mut I,
    room: &mut [u8],
    survivals: &[u64],
    head: Head,
) -> io::Result<()> {
    if head.length <= room.len() {
        let n = read_full(input, &mut room[..head.length]);
        print_call(rt, &room[..n], survivals, head)?;
    }
    Ok(())
}

// Reads until the buffer is full, the input ends or a read fails, and answers how many bytes are at
// the buffer's front.
fn read_full<I: Read>(input: &mut I, buf: &mut [u8]) -> usize
    ensures { result ≤ length buf.new }
{
    let mut done = 0;
    // What a read gives moves the place, and not a count.
    while done < buf.len() {
        match input.read(&mut buf[done..]) {
            Ok(0) | Err(_) => break,
            Ok(n) => done += n,
        }
    }
    done
}
