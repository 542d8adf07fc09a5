// All triangles of a result: "A's facets come first, then B's", each with its origin, "A's facet number, or A's facet count plus B's".
#![tactic(auto)]

mod boundary;

ghost use Rattle.std.specs.Prelude.{◌≤◌, length};
ghost use Rattle.fans.specs.Words.{Laid};
ghost use Rattle.composite_ends.specs.Words as Ce;

use composite_ends::Kept;
use fans::fan;

// Stores the triangles as far as there is room, and answers how many there are: on lists without room it only counts. `list` is for one boundary.
pub fn put_triangles(
    kept: &Kept<'_>,
    list: &mut [u32],
    corners: &mut [u32],
    origins: &mut [u32],
) -> usize
    requires pairs { Ce.Pairs kept.now }
    requires room { 6150 ≤ length list.old }
    ensures laid { Laid (Ce.triangles_of kept.now) corners.old origins.old 0 corners.new origins.new result }
    ensures small { result ≤ 1574400 }
{
    let mut k = 0;
    for x in 0..kept.crossings.plan.sizes.fa + kept.crossings.plan.sizes.fb {
        let m = boundary::boundary(kept, x, list, 0);
        k = fan::put_fan(list, m / 2, x as u32, corners, origins, k);
    }
    k
}
