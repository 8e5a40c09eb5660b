// Whole decimal numbers in a text, and lines of numbers with their separators.
#![tactic(auto)]

pub mod fields;
pub mod number_lines;

// A line that has its form: the index behind it and its numbers, 0 past the last.
#[derive(Clone, Copy, Debug, PartialEq, Eq)]
pub struct Line {
    pub next: usize,
    pub numbers: [u64; 8],
}
