// Numbers as bytes, as bits, as bit patterns and as decimal digits.
#![tactic(auto)]

pub mod bits;
pub mod decimal;
pub mod in_bytes;
pub mod patterns;
