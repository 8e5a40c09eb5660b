// A standing book on the command line. The one argument names the file with the filing; then each line of standard input is obeyed, and what is
// answered to it is printed.
#![tactic(auto)]

use book_state::Book;
use std::env::Env;
use std::fs::File;
use std::io;
use std::io::Read;
use std::rt::Files;
use text_book::{Opened, Reply, obey_read, open_read};
use text_input::{next_line, read_full};

// One byte more than the 65,536 of a filing is read, so that a longer one shows.
fn main(rt: HostRuntime) -> io::Result<()> {
    let mut path = [0u8; 4096];
    let Ok(length) = rt.arg(1, &mut path) else {
        return no_filing(&rt);
    };
    let Ok(name) = str::from_utf8(&path[..length]) else {
        return no_filing(&rt);
    };
    let Ok(mut file) = File::open(&rt, name) else {
        return no_filing(&rt);
    };
    let mut input = [0u8; 65537];
    let n = read_full(&mut file, &mut input);
    drop(file);
    let mut text = Reply::new();
    let Opened { book } = open_read(&input, n, &mut text);
    rt.write_all(text.as_slice())?;
    match book {
        Some(book) => obey_lines(&rt, &mut rt.stdin(), book),
        None => Ok(()),
    }
}

fn no_filing(rt: &impl Print) -> io::Result<()> {
    rt.write_all(b"no filing\n")
}

// Obeys each line of standard input, to its end, and prints what is answered to it. One byte more than the 1,024 of a line is read, so that a longer one
// shows.
fn obey_lines<R: Print, I: Read>(rt: &R, input: &mut I, mut book: Book) -> io::Result<()> {
    let mut line = [0u8; 1025];
    for _ in 0..u64::MAX {
        let Some(size) = next_line(input, &mut line) else {
            break;
        };
        rt.write_all(obey_read(&mut book, &line, size).as_slice())?;
    }
    Ok(())
}
