// Lines of numbers, read by their separators.
ghost use Rattle.std.specs.Prelude.{◌≡◌, ◌≤◌, length};
ghost use Rattle.text_numerals.specs.Inner.Fields.{line_at};

use crate::Line;
use crate::fields::read_number;

// The line from an index on, by its separators.
#[tactic(auto, using(crate::proofs::LineLaws::reading_start, crate::proofs::LineLaws::reading_fails, crate::proofs::LineLaws::reading_next, crate::proofs::LineLaws::reading_done))]
pub fn read_line(text: &[u8], from: usize, form: &[u8]) -> Option<Line>
    requires { length form.now ≤ 8 }
    ensures { result ≡ line_at text.now from form.now }
{
    let mut numbers = [0; 8];
    let mut next = from;
    for (j, separator) in form.iter().enumerate() {
        let field = read_number(text, next, *separator)?;
        numbers[j] = field.value;
        next = field.next;
    }
    Some(Line { next, numbers })
}
