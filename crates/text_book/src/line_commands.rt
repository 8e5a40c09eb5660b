// The command that a line says.
ghost use Rattle.std.specs.Prelude.{◌≡◌};
ghost use Rattle.text_book.specs.Commands.{command_of};

use crate::book_commands::Command;
use crate::command_words::{is_totals, numbers_behind};

// The most bytes of a line.
const LINE_LIMIT: usize = 1024;

// The command of a line without its line feed, where it says one.
pub(crate) fn command_of(line: &[u8]) -> Option<Command>
    ensures { result ≡ command_of line.now }
{
    if LINE_LIMIT < line.len() {
        return None;
    }
    if let Some(numbers) = numbers_behind(line, b"set ", b"    \n") {
        return Some(Command::Set {
            place: numbers[0],
            balance: numbers[1],
            coupon: numbers[2],
            months: numbers[3],
            penalty: numbers[4],
        });
    }
    if let Some(numbers) = numbers_behind(line, b"clear ", b"\n") {
        return Some(Command::Clear(numbers[0]));
    }
    if let Some(numbers) = numbers_behind(line, b"place ", b"\n") {
        return Some(Command::Place(numbers[0]));
    }
    is_totals(line).then_some(Command::Totals)
}
