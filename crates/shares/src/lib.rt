// The thirty-six sub-balances of a filing.
#![tactic(auto)]

pub mod apportion;
pub mod places;
