// What is printed to a command.
ghost use Rattle.std.specs.Prelude.{◌≡◌, ◌+◌, ◌≤◌, ◌++◌};
ghost use Rattle.arrayvec.specs.ArrayVec.{array_vec_len};
ghost use Rattle.text_book.specs.Replies.{place_text, ObeyedAs};

use crate::Reply;
use crate::book_commands::Command;
use crate::book_lines::{append_change, append_held, append_totals};
use arrayvec::ArrayVec;
use book_calls::{clear, set};
use book_state::Book;
use form::sub_balances::SUB_BALANCES;
use text::append_unreadable;
use text::lines::append_refusal;

// Obeys a command; a line that says none is unreadable.
pub(crate) fn reply(book: &mut Book, command: Option<Command>) -> Reply
    ensures { ObeyedAs book.old command result.items book.new }
{
    let mut text = ArrayVec::new();
    let Some(command) = command else {
        append_unreadable(&mut text);
        return text;
    };
    match command {
        Command::Set {
            place,
            balance,
            coupon,
            months,
            penalty,
        } => {
            let changed = set(book, place as usize, balance, coupon, months, penalty);
            append_change(&mut text, changed);
            text
        }
        Command::Clear(place) => {
            append_change(&mut text, clear(book, place as usize));
            text
        }
        Command::Place(place) => {
            append_place(&mut text, book, place as usize);
            text
        }
        Command::Totals => {
            append_totals(&mut text, book.balance, &book.totals);
            text
        }
    }
}

// What a place holds; 17 for a place above 35.
#[tactic(auto, using(crate::proofs::ReplyLaws::place_held, crate::proofs::ReplyLaws::place_none, text::proofs::LineLaws::refusal_short))]
fn append_place<const CAP: usize>(text: &mut ArrayVec<u8, CAP>, book: &Book, at: usize)
    requires { array_vec_len text.old + 644 ≤ CAP }
    ensures { text.new.items ≡ text.old.items ++ place_text book.now at }
{
    if SUB_BALANCES <= at {
        append_refusal(text, 17, at as u64);
    } else {
        append_held(text, &book.places[at]);
    }
}
