// Of the test program: numbers in an entry of its input, and the lines that are printed of what a call answers. What is written is tested, not proved.
#![tactic(auto)]

pub mod borrowings;
pub mod cells;
pub mod input;
pub mod output;
pub mod places;
pub mod values;
pub mod verdicts;
