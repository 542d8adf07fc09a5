// Where a request begins, and the parts that requests have in common.
#![tactic(auto)]

pub mod common;
pub mod requests;
