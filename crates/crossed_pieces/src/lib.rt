// The pieces of an edge that is crossed, as one of its half-edges has them: start, end, and the crossings that are marked, in the order of the other
// solid's facets.
#![tactic(auto)]

ghost use Rattle.std.specs.Prelude.{◌+◌, ◌≤◌, length};
ghost use Rattle.joined_ends.specs.Words.{flat, Behind};
ghost use Rattle.composite_ends.specs.Words as Ce;

use composite_ends::{BLANK, Kept, places, rows};
use placed_ends::Counts;

// Such an edge has almost always at most 8 ends, and at most 258. An array is cleared and then passed by value, so it has room for 8: where there are more
// ends, the array is joined whenever it is full, and filled anew.
pub fn put_pieces(kept: &Kept<'_>, h: usize, list: &mut [u32], to: usize) -> usize
    requires half { Ce.IsHalf kept.now.crossings h }
    requires h_in_bounds { to + length (flat (Ce.half_of kept.now h)) ≤ length list.old }
    ensures { Behind (flat (Ce.half_of kept.now h)) list.old to list.new result }
{
    let row = 256 * rows::line_row(kept.crossings.halves, kept.crossings.plan.sizes, h);
    let end = row + rows::line_many(kept.crossings.plan.sizes, h);
    let against = places::against(kept.crossings.halves, h);
    let mut all = [BLANK; 8];
    all[0] = kept.start(h, !against);
    all[1] = kept.stop(h, against);
    let mut n = 2;
    let mut c = Counts {
        starts: 0,
        stops: 0,
    };
    // No `for`: the next place is the next mark, which `marks::next` finds from this one.
    let mut i = marks::first(kept.marks, row, end);
    while i < end {
        if n == 8 {
            c = joined_ends::join_first(all, 8, &mut list[to..], c);
            n = 0;
        }
        all[n] = kept.crossings.line_end(h, i - row, against);
        n += 1;
        i = marks::next(kept.marks, i + 1, end);
    }
    c = joined_ends::join_first(all, n, &mut list[to..], c);
    placed_ends::next_place(c, to)
}
