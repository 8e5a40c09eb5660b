// A book of thirty-six places. It is kept as the sequence of its calls: what a place holds is what
// the last change of it that was not refused says. A call has six numbers of 8 bytes: 0 to set a
// place, 1 to clear it, 2 to show it, 3 for the totals; the place; and for a place to set its balance,
// coupon, months and penalty.
use crate::bytes::number;
use crate::cells::{MOST_BALANCE, POSITIONS};
use crate::refusals::{Fault, Refusal};
use crate::shares::SubBalance;

#[derive(Clone, Copy, Debug, PartialEq, Eq)]
pub enum Action {
    Set,
    Clear,
    Show,
    Totals,
}

// The bytes of a call.
pub const CALL: usize = 48;

#[derive(Clone, Copy, Debug)]
pub struct Call {
    pub action: Action,
    pub place: u64,
    held: SubBalance,
}

impl Call {
    pub fn read(bytes: &[u8]) -> Call {
        let place = number(bytes, 8, 8);
        Call {
            action: match number(bytes, 0, 8) {
                0 => Action::Set,
                1 => Action::Clear,
                2 => Action::Show,
                _ => Action::Totals,
            },
            place,
            held: SubBalance {
                balance: number(bytes, 16, 8),
                coupon: number(bytes, 24, 8),
                months: number(bytes, 32, 8),
                penalty: number(bytes, 40, 8),
                column: POSITIONS[(place / 4) as usize % 9].column,
                is_brokered: 2 <= place % 4,
            },
        }
    }

    // Refusal 17 of a change: a place past the last, or a place to set that is outside its limits.
    pub fn check(&self) -> Result<(), Refusal> {
        if 35 < self.place || self.action == Action::Set && !self.is_within_limits() {
            return Err(Fault::PlaceOutside.at(self.place));
        }
        Ok(())
    }

    fn is_within_limits(&self) -> bool {
        let position = POSITIONS[(self.place / 4) as usize % 9];
        let most_penalty = if self.place % 2 == 0 { 3600 } else { 0 };
        self.held.balance != 0
            && self.held.balance <= MOST_BALANCE
            && self.held.coupon <= 15000
            && position.is_of_row(self.held.months)
            && self.held.penalty <= most_penalty
    }

    // Whether the call changes a place, and is not refused.
    fn changes(&self, place: u64) -> bool {
        matches!(self.action, Action::Set | Action::Clear)
            && self.place == place
            && self.check().is_ok()
    }
}

// The book after some calls.
#[derive(Clone, Copy)]
pub struct Book<'a> {
    pub calls: &'a [u8],
}

impl Book<'_> {
    // What a place holds: nothing where no call has set it as it is.
    pub fn held(self, place: u64) -> SubBalance {
        let last = self
            .calls
            .chunks_exact(CALL)
            .rev()
            .map(|bytes| Call::read(bytes))
            .find(|call| call.changes(place));
        match last {
            Some(call) if call.action == Action::Set => call.held,
            _ => SubBalance::default(),
        }
    }

    // What all places hold, from 0 to 35.
    pub fn sub_balances(self) -> [SubBalance; 36] {
        std::array::from_fn(|place| self.held(place as u64))
    }
}
