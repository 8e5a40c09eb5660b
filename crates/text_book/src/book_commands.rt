// What a line asks of a book: a word, and numbers with single spaces between. Nothing runs here.

#[derive(Clone, Copy, Debug, PartialEq, Eq)]
pub enum Command {
    Set {
        place: u64,
        balance: u64,
        coupon: u64,
        months: u64,
        penalty: u64,
    },
    Clear(u64),
    Place(u64),
    Totals,
}
