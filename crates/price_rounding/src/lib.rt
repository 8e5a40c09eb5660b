// What is rounded: the upper half of a product, a quotient at either rounding, and a value in dollars.
#![tactic(auto)]

pub mod products;
pub mod rounding;
pub mod values;
