// How what several crates read lies in lists: how many there are of each thing, and a crossing as one number.
#![tactic(auto)]

pub mod pack;

// How many vertices, edges and facets A and B have.
#[derive(Clone, Copy)]
pub struct Sizes {
    pub va: usize,
    pub ea: usize,
    pub fa: usize,
    pub vb: usize,
    pub eb: usize,
    pub fb: usize,
}

// With them the number of the first crossing in the result.
#[derive(Clone, Copy)]
pub struct Plan {
    pub sizes: Sizes,
    pub base: usize,
}
