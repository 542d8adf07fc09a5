// The boundary of a facet: "A facet of A is bounded by the pieces of its half-edges, then by its pieces with each facet of B as joined. A facet of B
// is bounded by its pieces with each facet of A, turned round, then by the pieces of its half-edges." Facet x is A's or, from A's facet count on, B's.
ghost use Rattle.std.specs.Prelude.{◌+◌, ◌≤◌, length};
ghost use Rattle.joined_ends.specs.Words.{flat, Behind};
ghost use Rattle.composite_ends.specs.Words as Ce;

use composite_ends::{Kept, rows};
use touched_pairs::fill;

// The pieces with those facets of the other solid that are marked.
fn row(kept: &Kept<'_>, x: usize, list: &mut [u32], to: usize) -> usize
    requires pairs { Ce.Pairs kept.now }
    requires facet { Ce.IsFacet kept.now.crossings x }
    requires x_in_bounds { to + length (flat (Ce.row_of kept.now.crossings x)) ≤ length list.old }
    ensures { Behind (flat (Ce.row_of kept.now.crossings x)) list.old to list.new result }
{
    let from = 256 * fill::facet_row(kept.crossings.plan.sizes, x);
    let end = from + rows::others(kept.crossings.plan.sizes, x);
    let mut k = to;
    // No `for`: the next place is the next mark, which `marks::next` finds from this one.
    let mut i = marks::first(kept.marks, from, end);
    while i < end {
        k = facet_pieces::pair_at(&kept.crossings, x, i - from, list, k);
        i = marks::next(kept.marks, i + 1, end);
    }
    k
}

// The pieces of the three half-edges.
fn round(kept: &Kept<'_>, x: usize, list: &mut [u32], to: usize) -> usize
    requires facet { Ce.IsFacet kept.now.crossings x }
    requires x_in_bounds { to + length (flat (Ce.round_of kept.now x)) ≤ length list.old }
    ensures { Behind (flat (Ce.round_of kept.now x)) list.old to list.new result }
{
    let p = edge_pieces::half_pieces(kept, 3 * x, list, to);
    let q = edge_pieces::half_pieces(kept, 3 * x + 1, list, p);
    edge_pieces::half_pieces(kept, 3 * x + 2, list, q)
}

pub fn boundary(kept: &Kept<'_>, x: usize, list: &mut [u32], to: usize) -> usize
    requires pairs { Ce.Pairs kept.now }
    requires facet { Ce.IsFacet kept.now.crossings x }
    requires x_in_bounds { to + length (flat (Ce.boundary_of kept.now x)) ≤ length list.old }
    ensures { Behind (flat (Ce.boundary_of kept.now x)) list.old to list.new result }
{
    if x < kept.crossings.plan.sizes.fa {
        let k = round(kept, x, list, to);
        return row(kept, x, list, k);
    }
    let k = row(kept, x, list, to);
    round(kept, x, list, k)
}
