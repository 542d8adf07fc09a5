// The crossings of a vertex with a vertex or an edge.
#![tactic(auto)]

ghost use Rattle.std.specs.Prelude.{◌≡◌, ◌≤◌, nat_abs};
ghost use Rattle.points.specs.Points as P;
ghost use Rattle.crossings.specs.Crossings as C;

use crossings::{Crossing, Edge};
use points::{Axis, Point, PointPair};

// "Two vertices: X = 1, the points are the vertices."
pub fn vv(a: Point, b: Point) -> Crossing
    ensures value { result ≡ C.vv a b }
    ensures small { nat_abs (C.count result) ≤ 1 }
{
    Crossing::Cross(1, PointPair { a, b })
}

// Is B's point at least A's, by x?
#[tactic(auto, unfolding(points::specs::Points::at_least))]
pub fn past(a: Point, b: Point) -> bool
    ensures { result ≡ P.at_least Axis.X (record { a = a; b = b }) }
{
    a.x <= b.x
}

// Most pairings of a vertex miss by x alone: all points of the other thing lie on one side of it, so that S is the same at each pair of vertices,
// and what it is worked out from cancels. That is looked at first.
// A vertex with an edge and an edge with a vertex are two functions, as the document has a formula for each: order and signs are all that they are.

// "X(vA,eB) = S(vA,e) - S(vA,s)"
pub fn ve(v: Point, e: Edge) -> Crossing
    ensures value { result ≡ C.ve v e }
    ensures small { nat_abs (C.count result) ≤ 1 }
{
    if past(v, e.start) == past(v, e.end) {
        return Crossing::Miss;
    }
    let start = vv(v, e.start).against();
    let end = vv(v, e.end);
    gathering::paired(Axis::X, &[start, end])
}

// "X(eA,vB) = S(s,vB) - S(e,vB)"
pub fn ev(e: Edge, v: Point) -> Crossing
    ensures value { result ≡ C.ev e v }
    ensures small { nat_abs (C.count result) ≤ 1 }
{
    if past(e.start, v) == past(e.end, v) {
        return Crossing::Miss;
    }
    let start = vv(e.start, v);
    let end = vv(e.end, v).against();
    gathering::paired(Axis::X, &[start, end])
}
