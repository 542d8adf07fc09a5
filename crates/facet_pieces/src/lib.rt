// The pieces of a facet of A with a facet of B.
#![tactic(auto)]

ghost use Rattle.std.specs.Prelude.{◌+◌, ◌≤◌, length};
ghost use Rattle.joined_ends.specs.Words.{flat, Behind};
ghost use Rattle.composite_ends.specs.Words as Ce;

use composite_ends::Crossed;

// Facet x, which is A's or, from A's facet count on, B's, with facet i of the other solid. The six ends are joined; B's pieces are turned round.
pub fn pair_at(crossings: &Crossed<'_>, x: usize, i: usize, list: &mut [u32], to: usize) -> usize
    requires facets { Ce.IsFacet crossings.now x × Ce.IsOther crossings.now x i }
    requires i_in_bounds { to + length (flat (Ce.pair_of crossings.now x i)) ≤ length list.old }
    ensures { Behind (flat (Ce.pair_of crossings.now x i)) list.old to list.new result }
{
    let of_b = !(x < crossings.plan.sizes.fa);
    joined_ends::join_at(crossings.side_ends(x, i, of_b), 6, list, to)
}
