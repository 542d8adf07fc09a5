// Where an edge has its marks, and how many facets the other solid has, of an edge and of a facet.
ghost use Rattle.std.specs.Prelude.{◌≡◌, ◌+◌, ◌*◌, ◌<◌};
ghost use Rattle.layouts.specs.Words as La;
ghost use Rattle.vertex_table.specs.Words as T;
ghost use Rattle.kept_lists.specs.Words as K;

use crate::places;
use layouts::Sizes;

// The row of half-edge h's edge.
pub fn line_row(halves: &[u32], z: Sizes, h: usize) -> usize
    requires { T.Halves halves.now z × (h < 3 * (z.fa + z.fb)) }
    ensures { result ≡ K.line_row halves.now z h }
{
    let e = places::edge_of(halves, h);
    if h < 3 * z.fa {
        return e;
    }
    z.ea + e
}

// How many facets the other solid has, of half-edge h.
pub fn line_many(z: Sizes, h: usize) -> usize
    requires { La.Sized z }
    ensures { result ≡ K.line_many z h }
{
    if h < 3 * z.fa { z.fb } else { z.fa }
}

// Of facet x, which is A's or, from A's facet count on, B's.
pub fn others(z: Sizes, x: usize) -> usize
    ensures { result ≡ T.others z x }
{
    if x < z.fa { z.fb } else { z.fa }
}
