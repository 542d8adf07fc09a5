// Which facets each edge crosses, and which facets have pieces with which, as marks.
#![tactic(auto)]

pub mod fill;
