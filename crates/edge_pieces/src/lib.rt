// The pieces of one edge, as one of its half-edges has them: start, end, and the crossings that are marked, in the order of the other solid's facets.
#![tactic(auto)]

mod quiet;

ghost use Rattle.std.specs.Prelude.{◌+◌, ◌≤◌, length};
ghost use Rattle.joined_ends.specs.Words.{flat, Behind};
ghost use Rattle.composite_ends.specs.Words as Ce;

use composite_ends::{Kept, places, rows};

// "start (minus its inclusion), end (its inclusion), then crossings"; of a half-edge against its edge each count is negated, which turns each piece
// round. They go behind the first `to` numbers of the list. Most edges are not crossed at all.
pub fn half_pieces(kept: &Kept<'_>, h: usize, list: &mut [u32], to: usize) -> usize
    requires half { Ce.IsHalf kept.now.crossings h }
    requires h_in_bounds { to + length (flat (Ce.half_of kept.now h)) ≤ length list.old }
    ensures { Behind (flat (Ce.half_of kept.now h)) list.old to list.new result }
{
    let row = 256 * rows::line_row(kept.crossings.halves, kept.crossings.plan.sizes, h);
    let end = row + rows::line_many(kept.crossings.plan.sizes, h);
    if marks::first(kept.marks, row, end) == end {
        let against = places::against(kept.crossings.halves, h);
        let start = kept.start(h, !against);
        let stop = kept.stop(h, against);
        return quiet::two_ends(start, stop, list, to);
    }
    crossed_pieces::put_pieces(kept, h, list, to)
}
