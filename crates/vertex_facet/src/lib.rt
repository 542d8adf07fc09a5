// The crossings of a vertex with a facet.
#![tactic(auto)]

ghost use Rattle.std.specs.Prelude.{◌≡◌, ◌≤◌, nat_abs};
ghost use Rattle.crossings.specs.Crossings as C;

use crossings::{Crossing, Facet};
use points::{Axis, Point};
use vertex_edge::{ev, past, ve};

// What misses by x alone is seen first, as in crates/vertex_edge; and as there, the document has a formula for each of the two.

// "X(vA,fB) = - sum S(vA,h)"
pub fn vf(v: Point, f: Facet) -> Crossing
    ensures value { result ≡ C.vf v f }
    ensures small { nat_abs (C.count result) ≤ 1 }
{
    let side = past(v, f.p);
    if side == past(v, f.q) && side == past(v, f.r) {
        return Crossing::Miss;
    }
    let pq = ve(v, f.edge_pq()).signed(f.pq).against();
    let qr = ve(v, f.edge_qr()).signed(f.qr).against();
    let rp = ve(v, f.edge_rp()).signed(f.rp).against();
    gathering::paired(Axis::Y, &[pq, qr, rp])
}

// "X(fA,vB) = sum S(h,vB)"
pub fn fv(f: Facet, v: Point) -> Crossing
    ensures value { result ≡ C.fv f v }
    ensures small { nat_abs (C.count result) ≤ 1 }
{
    let side = past(f.p, v);
    if side == past(f.q, v) && side == past(f.r, v) {
        return Crossing::Miss;
    }
    let pq = ev(f.edge_pq(), v).signed(f.pq);
    let qr = ev(f.edge_qr(), v).signed(f.qr);
    let rp = ev(f.edge_rp(), v).signed(f.rp);
    gathering::paired(Axis::Y, &[pq, qr, rp])
}
