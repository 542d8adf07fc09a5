// The words of standard input, and the numbers and bytes that a word's letters stand for.
#![tactic(auto)]

pub mod digits;
pub mod input;
