// The parts that requests are made of, read from the words of standard input.
#![tactic(auto)]

pub mod parts;
