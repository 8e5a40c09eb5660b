// The run over the months of a deposit before the last.
#![tactic(auto)]

pub mod month_steps;
pub mod walk;
