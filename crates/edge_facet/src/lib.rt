// The crossings of an edge with an edge or a facet.
#![tactic(auto)]

ghost use Rattle.std.specs.Prelude.{◌≡◌, ◌≤◌, nat_abs};
ghost use Rattle.crossings.specs.Crossings as C;

use crossings::{Crossing, Edge, Facet};
use points::Axis;

// "X(eA,eB) = S(eA's e,eB) - S(eA's s,eB) + S(eA,eB's e) - S(eA,eB's s)"
pub fn ee(a: Edge, b: Edge) -> Crossing
    ensures value { result ≡ C.ee a b }
    ensures small { nat_abs (C.count result) ≤ 1 }
{
    let start_a = vertex_edge::ve(a.start, b).against();
    let end_a = vertex_edge::ve(a.end, b);
    let start_b = vertex_edge::ev(a, b.start).against();
    let end_b = vertex_edge::ev(a, b.end);
    gathering::paired(Axis::Y, &[start_a, end_a, start_b, end_b])
}

// An edge with a facet and a facet with an edge are two functions, as the document has a formula for each: order and signs are all that they are.

// "X(eA,fB) = S(s,fB) - S(e,fB) - sum S(eA,h)"
pub fn ef(e: Edge, f: Facet) -> Crossing
    ensures value { result ≡ C.ef e f }
    ensures small { nat_abs (C.count result) ≤ 2 }
{
    let start = vertex_facet::vf(e.start, f);
    let end = vertex_facet::vf(e.end, f).against();
    let pq = ee(e, f.edge_pq()).signed(f.pq).against();
    let qr = ee(e, f.edge_qr()).signed(f.qr).against();
    let rp = ee(e, f.edge_rp()).signed(f.rp).against();
    gathering::paired(Axis::Z, &[start, end, pq, qr, rp])
}

// "X(fA,eB) = S(fA,e) - S(fA,s) - sum S(h,eB)"
pub fn fe(f: Facet, e: Edge) -> Crossing
    ensures value { result ≡ C.fe f e }
    ensures small { nat_abs (C.count result) ≤ 2 }
{
    let pq = ee(f.edge_pq(), e).signed(f.pq).against();
    let qr = ee(f.edge_qr(), e).signed(f.qr).against();
    let rp = ee(f.edge_rp(), e).signed(f.rp).against();
    let start = vertex_facet::fv(f, e.start).against();
    let end = vertex_facet::fv(f, e.end);
    gathering::paired(Axis::Z, &[pq, qr, rp, start, end])
}
