// A list of changes made in turn on the book that a filing opens (02:CR 7): the totals that it then shows, without a book to keep.
ghost use Rattle.std.specs.Prelude.{◌≡◌, ◌<◌, None};
ghost use Rattle.book_promise.specs.Promise.{ChangedOf};
ghost use Rattle.book_calls.specs.Changing.{leaves_nothing, clears, change_of, change_count, change_at, ChangedAll, BookOf};

use crate::{clear, open, set};
use answers::Refusal;
use book_state::Book;

// The book after a list of changes, and how many were made.
#[derive(Clone, Copy)]
pub struct Changed {
    pub book: Book,
    pub made: usize,
}

// Why the changes of a list are not made: the first refusal, of the filing or of a change, how many changes were made before it, and the book as it was
// opened, where the filing opens one.
#[derive(Clone, Copy)]
pub struct NotChanged {
    pub refusal: Refusal,
    pub made: usize,
    pub book: Option<Book>,
}

impl From<Refusal> for NotChanged {
    ghost from_gives = { λ refusal none. none ≡ record { refusal = refusal; made = 0; book = None } };

    fn from(refusal: Refusal) -> NotChanged {
        NotChanged {
            refusal,
            made: 0,
            book: None,
        }
    }
}

// Opens a book from a filing and makes the changes of a list in turn. A change is six numbers: 0 to set a place or 1 to clear it, the place, then balance,
// coupon, months and penalty as `set` takes them, or 0 each. Only whole changes count. The first refusal answers, and leaves the
// book as it was opened.
pub fn book_of(filing: &[u8], changes: &[u64]) -> Result<Changed, NotChanged>
    ensures changed { BookOf filing.now changes.now result }
{
    let mut book = open(filing)?;
    let made = change_all(&mut book, changes)?;
    Ok(Changed { book, made })
}

// The changes in turn: how many were made. One that is refused leaves the book as it was before them all.
fn change_all(book: &mut Book, changes: &[u64]) -> Result<usize, NotChanged>
    ensures { ChangedAll book.old changes.now result book.new }
{
    let opened = *book;
    let count = changes.len() / 6;
    for k in 0..count {
        if let Err(refusal) = change_at(book, changes, k) {
            *book = opened;
            return Err(NotChanged {
                refusal,
                made: k,
                book: Some(opened),
            });
        }
    }
    Ok(count)
}

// Change k of the list.
fn change_at(book: &mut Book, changes: &[u64], k: usize) -> Result<(), Refusal>
    requires { k < change_count changes.now }
    ensures { ChangedOf book.old (change_at changes.now k) result book.new }
{
    let at = 6 * k;
    change(
        book,
        changes[at],
        changes[at + 1],
        changes[at + 2],
        changes[at + 3],
        changes[at + 4],
        changes[at + 5],
    )
}

// The change that six numbers mean.
fn change(
    book: &mut Book,
    action: u64,
    place: u64,
    balance: u64,
    coupon: u64,
    months: u64,
    penalty: u64,
) -> Result<(), Refusal>
    ensures { ChangedOf book.old (change_of action place balance coupon months penalty) result book.new }
{
    if clears(action, balance, coupon, months, penalty) {
        return clear(book, place as usize);
    }
    if action == 0 {
        return set(book, place as usize, balance, coupon, months, penalty);
    }
    Err(Refusal::OutsidePlaceLimits(place as usize))
}

// A place is to be cleared, with nothing besides.
#[tactic(auto, unfolding(crate::specs::Changing::clears))]
fn clears(action: u64, balance: u64, coupon: u64, months: u64, penalty: u64) -> bool
    ensures { result ≡ clears action balance coupon months penalty }
{
    action == 1 && leaves_nothing(balance, coupon, months, penalty)
}

// Balance, coupon, months and penalty are all 0.
#[tactic(auto, unfolding(crate::specs::Changing::leaves_nothing))]
fn leaves_nothing(balance: u64, coupon: u64, months: u64, penalty: u64) -> bool
    ensures { result ≡ leaves_nothing balance coupon months penalty }
{
    balance == 0 && coupon == 0 && months == 0 && penalty == 0
}
