// The points of the result, one behind the other: the vertices of A that are kept, the crossings row by row, the vertices of B that are kept.
// Lists that are written stay parameters, for the reason that crates/edges gives.
#![tactic(auto)]

ghost use Rattle.std.specs.Prelude.{◌≡◌, [], ◌+◌, ◌/◌, ◌≤◌, length};
ghost use Rattle.std.proofs.lemmas.List.Edits.{sets};
ghost use Rattle.list_words.specs.Lists.{onto};
ghost use Rattle.solids.specs.Solids as So;
ghost use Rattle.edges.specs.Readers.{solid_of};
ghost use Rattle.layouts.specs.Words as La;
ghost use Rattle.result_points.specs.Words as Rp;

use edges::ReadySolid;
use layouts::Sizes;

// A solid's vertices that are kept; their inclusions stand from place `from` on.
fn put_vertices(vs: &[f64], inc: &[i16], from: usize, list: &mut [f64], at: usize) -> usize
    requires vs_in_bounds { from + length vs.now / 3 ≤ length inc.now }
    requires from_in_bounds { at + length (Rp.of_vertices (So.solid vs.now []) inc.now from) ≤ length list.old }
    ensures put { list.new ≡ sets list.old at (Rp.of_vertices (So.solid vs.now []) inc.now from) }
    ensures next { result ≡ at + length (Rp.of_vertices (So.solid vs.now []) inc.now from) }
{
    let mut next = at;
    for i in 0..vs.len() / 3 {
        let n = inc[from + i];
        if n != 0 {
            list_stores::put_point(vertices::vertex(vs, i), list, next);
            next += 3;
        }
    }
    next
}

pub fn put_points(
    z: Sizes,
    a: ReadySolid,
    b: ReadySolid,
    inc: &[i16],
    first: &[u32],
    crossed: &[u32],
    points: &mut [f64],
)
    requires z_value { (z ≡ La.sizes (solid_of a) (solid_of b)) × La.Columns z first.now crossed.now × (z.va + z.vb ≤ length inc.now) }
    requires crossed_in_bounds { length (Rp.placed (solid_of a) (solid_of b) inc.now first.now crossed.now) ≤ length points.old }
    ensures { points.new ≡ onto (Rp.placed (solid_of a.entry) (solid_of b.entry) inc.now first.now crossed.now) points.old }
{
    let behind_a = put_vertices(a.points, inc, 0, points, 0);
    let behind_rows = crossing_points::put_rows(z, a, b, first, crossed, points, behind_a);
    put_vertices(b.points, inc, z.va, points, behind_rows);
}
