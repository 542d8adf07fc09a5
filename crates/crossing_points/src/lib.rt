// The points of the crossings, one behind the other, row by row.
// Lists that are written stay parameters, for the reason that crates/edges gives.
#![tactic(auto)]

ghost use Rattle.std.specs.Prelude.{◌≡◌, ℕ, ◌+◌, ◌<◌, ◌≤◌, length, get_or};
ghost use Rattle.std.proofs.lemmas.List.Edits.{sets};
ghost use Rattle.edges.specs.Readers.{solid_of};
ghost use Rattle.layouts.specs.Words as La;
ghost use Rattle.crossing_points.specs.Words as Cp;

use crossing_rows::Row;
use edges::ReadySolid;
use layouts::{Sizes, pack};
use points::Point;

// "A new vertex in a result is A's point."
#[tactic(auto, unfolding(crate::specs::Words::width, crate::specs::Words::point_on))]
fn point_on(row: Row, b: ReadySolid, c: usize) -> Point
    requires { c < Cp.width row (solid_of b) }
    ensures { result ≡ Cp.point_on row (solid_of b.entry) c }
{
    let crossing = match row {
        Row::OfEdge(edge) => edge_facet::ef(edge, b.facet(c)),
        Row::OfFacet(facet) => edge_facet::fe(facet, b.edge(c)),
    };
    crossing.points().a
}

// The crossings of a row, which stand at the places from `from` to before `to`; the answer is where the list goes on.
fn put_row(
    row: Row,
    b: ReadySolid,
    crossed: &[u32],
    from: usize,
    to: usize,
    list: &mut [f64],
    at: usize,
) -> usize
    requires to_in_bounds { (to ≤ length crossed.now) × ((k : ℕ) → from ≤ k → k < to → La.column (get_or crossed.now k 0) < Cp.width row (solid_of b)) }
    requires to_in_bounds_2 { at + length (Cp.stretch (Cp.point_on row (solid_of b)) crossed.now from to) ≤ length list.old }
    ensures put { list.new ≡ sets list.old at (Cp.stretch (Cp.point_on row (solid_of b.entry)) crossed.now from to) }
    ensures next { result ≡ at + length (Cp.stretch (Cp.point_on row (solid_of b.entry)) crossed.now from to) }
{
    let mut next = at;
    for k in from..to {
        let v = point_on(row, b, pack::column(crossed[k]));
        list_stores::put_point(v, list, next);
        next += 3;
    }
    next
}

// All rows.
pub fn put_rows(
    z: Sizes,
    a: ReadySolid,
    b: ReadySolid,
    first: &[u32],
    crossed: &[u32],
    list: &mut [f64],
    at: usize,
) -> usize
    requires z_value { (z ≡ La.sizes (solid_of a) (solid_of b)) × La.Columns z first.now crossed.now }
    requires crossed_in_bounds { at + length (Cp.of_rows (solid_of a) (solid_of b) first.now crossed.now) ≤ length list.old }
    ensures put { list.new ≡ sets list.old at (Cp.of_rows (solid_of a.entry) (solid_of b.entry) first.now crossed.now) }
    ensures next { result ≡ at + length (Cp.of_rows (solid_of a.entry) (solid_of b.entry) first.now crossed.now) }
{
    let mut next = at;
    for r in 0..z.ea + z.fa {
        let row = crossing_rows::row_at(a, z.ea, r);
        let from = first[r] as usize;
        let to = first[r + 1] as usize;
        next = put_row(row, b, crossed, from, to, list, next);
    }
    next
}
