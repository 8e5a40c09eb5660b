// What may stand only once in a filing: what each record is one of.
ghost use Rattle.std.specs.Prelude.{◌≡◌};
ghost use Rattle.record_kinds.specs.Items.{record_class, record_item};

use crate::{AMENDMENT_KIND, FINE_COUPON_KIND, due_length, gives_cell};
use form::tables::{COUPON_CLASS, cell_class};
use record_fields::{amendment_number, record_cell, record_kind};

// What a record is one of, if it may stand only once.
#[derive(Clone, Copy, Debug, PartialEq, Eq)]
pub enum Item {
    // A cell, by its number.
    Cell(u64),
    // A kind of sheet.
    Sheet(usize),
    // An amendment of a cell, by the cell's number and its own.
    Amendment(u64, u16),
}

// The item of a record: of its cell, or an amendment of it, where that is listed; another kind that is known of its kind.
pub fn record_item(s: &[u8], at: usize) -> Option<Item>
    ensures { result ≡ record_item s.now at }
{
    let kind = record_kind(s, at);
    if gives_cell(kind) {
        if record_class(s, at) == 0 {
            return None;
        }
        return Some(Item::Cell(record_cell(s, at)));
    }
    if kind == AMENDMENT_KIND {
        if record_class(s, at) == 0 {
            return None;
        }
        return Some(Item::Amendment(record_cell(s, at), amendment_number(s, at)));
    }
    if due_length(s, at) == 0 {
        return None;
    }
    Some(Item::Sheet(kind))
}

// The class of a record's cell, 0 where it is not listed: for a coupon in thousandths a coupon alone is.
pub fn record_class(s: &[u8], at: usize) -> usize
    ensures { result ≡ record_class s.now at }
{
    let class = cell_class(record_cell(s, at));
    if record_kind(s, at) != FINE_COUPON_KIND {
        return class;
    }
    if class == COUPON_CLASS { class } else { 0 }
}
