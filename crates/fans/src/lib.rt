// What a result is laid into: the number of each slot of the table, and the triangles over each boundary with their origins.
#![tactic(auto)]

pub mod fan;
pub mod numbers;
