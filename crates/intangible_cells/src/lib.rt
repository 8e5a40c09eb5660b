// The intangible of one cell (02:CR 9): its filed term, and its lower and upper result in a scenario.
#![tactic(auto)]

mod filed_term;
pub mod scenarios;
