// The text of a standing book: what is printed at its opening, and to each line that it obeys.
#![tactic(auto)]

pub mod book_commands;
pub mod book_lines;
pub mod command_words;
pub mod line_commands;
mod replies;

ghost use Rattle.std.specs.Prelude.{take};
ghost use Rattle.text_book.specs.Commands.{command_of};
ghost use Rattle.text_book.specs.Replies.{OpenedAs, ObeyedAs};

use crate::book_lines::append_opened;
use crate::line_commands::command_of;
use crate::replies::reply;
use arrayvec::ArrayVec;
use book_calls::open;
use book_state::Book;
use text::answer_lines::append_refused;
use text::append_too_long;
use text_listing::FILING_LIMIT;

// What the program reads of a filing and of a line: one byte more than the 65,536 and the 1,024 that they may have, so that a longer one shows.
pub type FilingInput = [u8; 65537];

pub type LineInput = [u8; 1025];

// What is printed to a line: the balance total and seven lines, 644 bytes at most.
pub type Reply = ArrayVec<u8, 644>;

// The book under a filing, where it is open.
#[derive(Clone, Copy)]
pub struct Opened {
    pub book: Option<Book>,
}

// Opens a book as `open_book` does, under the first `size` bytes that were read of a filing.
pub fn open_read(input: &FilingInput, size: usize, text: &mut Reply) -> Opened
    ensures opened { OpenedAs (take size input.now) result.book text.new.items }
{
    open_book(&input[..size.min(input.len())], text)
}

// Obeys a line as `obey` does: the first `size` bytes that were read of it.
pub fn obey_read(book: &mut Book, input: &LineInput, size: usize) -> Reply
    ensures obeyed { ObeyedAs book.old (command_of (take size input.now)) result.items book.new }
{
    obey(book, &input[..size.min(input.len())])
}

// Opens a book under a filing. The text that is lent, whatever it held, is what is printed of it.
pub fn open_book(filing: &[u8], text: &mut Reply) -> Opened
    ensures opened { OpenedAs filing.now result.book text.new.items }
{
    text.clear();
    if FILING_LIMIT < filing.len() {
        append_too_long(text);
        return Opened { book: None };
    }
    match open(filing) {
        Ok(book) => {
            append_opened(text);
            Opened { book: Some(book) }
        }
        Err(refusal) => {
            append_refused(text, refusal);
            Opened { book: None }
        }
    }
}

// Obeys a line, given without its line feed, and answers what is printed to it.
pub fn obey(book: &mut Book, line: &[u8]) -> Reply
    ensures obeyed { ObeyedAs book.old (command_of line.now) result.items book.new }
{
    reply(book, command_of(line))
}
