// How many triangles there are, told by the ends of each facet's composite edges as they come: nothing is joined, and no piece is stored.
#![tactic(auto)]

ghost use Rattle.std.specs.Prelude.{◌≡◌, ◌+◌, ◌*◌, ◌≤◌, length};
ghost use mathlib.Core.List.{flat_map};
ghost use Rattle.list_words.specs.Lists.{up_to};
ghost use Rattle.vertex_table.specs.Words as T;
ghost use Rattle.fan_counts.specs.Words as Fc;
ghost use Rattle.composite_ends.specs.Words as Ce;

use composite_ends::{Crossed, Kept, rows};
use fan_counts::Tally;
use touched_pairs::fill;

// The ends of half-edge h's edge: "start (minus its inclusion), end (its inclusion), then crossings", those that are marked.
fn tell_line(kept: &Kept<'_>, h: usize, t: Tally) -> Tally
    requires { Ce.IsHalf kept.now.crossings h × (t.pieces ≤ 1000000) × (t.at ≤ 1000000) }
    ensures told { result ≡ Fc.tell t (Ce.line_ends_of kept.now h) }
    ensures near { Fc.Near t result 1026 }
{
    let row = 256 * rows::line_row(kept.crossings.halves, kept.crossings.plan.sizes, h);
    let end = row + rows::line_many(kept.crossings.plan.sizes, h);
    let start = kept.start(h, true);
    let stop = kept.stop(h, false);
    let mut r = fan_counts::tell(fan_counts::tell(t, start), stop);
    // No `for`: the next place is the next mark, which `marks::next` finds from this one.
    let mut i = marks::first(kept.marks, row, end);
    while i < end {
        r = fan_counts::tell(r, kept.crossings.line_end(h, i - row, false));
        i = marks::next(kept.marks, i + 1, end);
    }
    r
}

// The six ends of facet x, A's or B's, with facet i of the other solid.
fn tell_side(crossings: &Crossed<'_>, x: usize, i: usize, t: Tally) -> Tally
    requires { Ce.IsFacet crossings.now x × Ce.IsOther crossings.now x i × (t.pieces ≤ 1000000) × (t.at ≤ 1000000) }
    ensures told { result ≡ Fc.tell t (Ce.side_ends_of crossings.now x i) }
    ensures near { Fc.Near t result 12 }
{
    let ends = crossings.side_ends(x, i, false);
    let mut r = t;
    for end in &ends[..6] {
        r = fan_counts::tell(r, *end);
    }
    r
}

// Those with all facets of the other solid, of which those that are marked count.
fn tell_row(kept: &Kept<'_>, x: usize, t: Tally) -> Tally
    requires pairs { Ce.Pairs kept.now }
    requires facet { Ce.IsFacet kept.now.crossings x }
    requires few { (t.pieces ≤ 900000) × (t.at ≤ 900000) }
    ensures told { result ≡ Fc.tell t (flat_map (Ce.side_ends_of kept.now.crossings x) (up_to (T.others kept.now.crossings.plan.sizes x))) }
{
    let from = 256 * fill::facet_row(kept.crossings.plan.sizes, x);
    let end = from + rows::others(kept.crossings.plan.sizes, x);
    let mut r = t;
    // No `for`: the next place is the next mark, which `marks::next` finds from this one.
    let mut i = marks::first(kept.marks, from, end);
    while i < end {
        r = tell_side(&kept.crossings, x, i - from, r);
        i = marks::next(kept.marks, i + 1, end);
    }
    r
}

// How many triangles facet x has: its pieces, less those at its least vertex.
fn fan_size(kept: &Kept<'_>, x: usize) -> usize
    requires pairs { Ce.Pairs kept.now }
    requires balanced { Ce.Balanced kept.now }
    requires facet { Ce.IsFacet kept.now.crossings x }
    ensures { result ≡ length (Ce.fan_of kept.now x) }
{
    let none = Tally {
        pieces: 0,
        least: 0,
        at: 0,
    };
    let a = tell_line(kept, 3 * x, none);
    let b = tell_line(kept, 3 * x + 1, a);
    let c = tell_line(kept, 3 * x + 2, b);
    let r = tell_row(kept, x, c);
    r.pieces - r.at
}

// How many triangles `put_triangles` (crates/result_triangles) stores, where no vertex of a composite edge has starts and stops and there are as many of each.
pub fn count_triangles(kept: &Kept<'_>) -> usize
    requires pairs { Ce.Pairs kept.now }
    requires balanced { Ce.Balanced kept.now }
    ensures counted { result ≡ length (Ce.triangles_of kept.now) }
    ensures small { result ≤ 1574400 }
{
    let mut k = 0;
    for x in 0..kept.crossings.plan.sizes.fa + kept.crossings.plan.sizes.fb {
        k += fan_size(kept, x);
    }
    k
}
