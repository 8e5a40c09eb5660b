// The places of a filing valued one by one: the longest term that has to be discounted, and the fifteen numbers of a place.
#![tactic(auto)]

pub mod longest_term;
pub mod place_row;
pub mod totals;
