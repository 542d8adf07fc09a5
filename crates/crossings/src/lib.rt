// The things that are paired, one of A with one of B, and what a pairing answers. v is a vertex, e an edge, f a facet, A's thing first: `ef` is an
// edge of A with a facet of B.
#![tactic(auto)]

ghost use Rattle.std.specs.Prelude.{◌≡◌, true, false, cond, ◌+◌, ◌<◌, ◌≤◌, ◌^◌, pos, nat_abs, ◌+ℤ◌};
ghost use Rattle.list_words.specs.Lists.{nonzero};
ghost use Rattle.points.specs.Points as P;
ghost use Rattle.crossings.specs.Crossings as C;

use points::{Axis, Point, PointPair};

// An edge starts at the end with the lower vertex number.
#[derive(Clone, Copy)]
pub struct Edge {
    pub start: Point,
    pub end: Point,
}

impl Edge {
    // The edge of the half-edge from p to q, which runs along it or against it. Nothing is worked out in a half-edge's own direction.
    pub fn of(along: bool, p: Point, q: Point) -> Edge
        ensures { result ≡ C.edge_of along p q }
    {
        if along {
            Edge { start: p, end: q }
        } else {
            Edge { start: q, end: p }
        }
    }
}

// A facet's corners p, q, r, and for each of its half-edges whether it runs along its edge (true) or against it.
#[derive(Clone, Copy)]
pub struct Facet {
    pub p: Point,
    pub q: Point,
    pub r: Point,
    pub pq: bool,
    pub qr: bool,
    pub rp: bool,
}

// The edges of its half-edges.
impl Facet {
    pub fn edge_pq(self) -> Edge
        ensures { result ≡ C.edge_of self.pq self.p self.q }
    {
        Edge::of(self.pq, self.p, self.q)
    }

    pub fn edge_qr(self) -> Edge
        ensures { result ≡ C.edge_of self.qr self.q self.r }
    {
        Edge::of(self.qr, self.q, self.r)
    }

    pub fn edge_rp(self) -> Edge
        ensures { result ≡ C.edge_of self.rp self.r self.p }
    {
        Edge::of(self.rp, self.r, self.p)
    }
}

// "a pairing either misses, or crosses with its count and two points, one on each thing". Not an Option: it has the methods below.
#[derive(Clone, Copy)]
pub enum Crossing {
    Miss,
    Cross(i32, PointPair),
}

impl Crossing {
    // X
    pub fn count(self) -> i32
        ensures { result ≡ C.count self }
    {
        match self {
            Crossing::Miss => 0,
            Crossing::Cross(n, _) => n,
        }
    }

    // Where it misses, zeros: no result asks for them.
    pub fn points(self) -> PointPair
        ensures { result ≡ C.points self }
    {
        match self {
            Crossing::Miss => {
                let zero = Point {
                    x: 0.0,
                    y: 0.0,
                    z: 0.0,
                };
                PointPair { a: zero, b: zero }
            }
            Crossing::Cross(_, w) => w,
        }
    }

    // "S equals X if X is not 0 and B's coordinate at the pair of points is at least A's; otherwise S is 0."
    #[tactic(auto, unfolding(crate::specs::Crossings::S))]
    pub fn s(self, k: Axis) -> i32
        ensures value { result ≡ C.S k self }
        ensures small { nat_abs result ≤ nat_abs (C.count self) }
    {
        match self {
            Crossing::Miss => 0,
            Crossing::Cross(n, w) => if points::at_least(k, w) { n } else { 0 },
        }
    }

    // "the negated value and the same points"
    pub fn against(self) -> Crossing
        requires { nat_abs (C.count self) < 2 ^ 31 }
        ensures value { result ≡ C.against self }
        ensures small { nat_abs (C.count result) ≤ nat_abs (C.count self) }
    {
        match self {
            Crossing::Miss => Crossing::Miss,
            Crossing::Cross(n, w) => Crossing::Cross(-n, w),
        }
    }

    // What an edge's crossing is for a half-edge that runs along the edge or against it.
    pub fn signed(self, along: bool) -> Crossing
        requires { nat_abs (C.count self) < 2 ^ 31 }
        ensures value { result ≡ cond along self (C.against self) }
        ensures small { nat_abs (C.count result) ≤ nat_abs (C.count self) }
    {
        if along { self } else { self.against() }
    }
}
