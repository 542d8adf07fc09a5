// X of an edge with a facet, and S of a vertex with a facet, without their points: each vertex with each edge once, and of its points only what is
// asked for.
#![tactic(auto)]

ghost use Rattle.std.specs.Prelude.{◌≡◌, not, ◌+◌, ◌≤◌, nat_abs, ◌+ℤ◌, ◌-ℤ◌};
ghost use Rattle.points.specs.Points as P;
ghost use Rattle.crossings.specs.declared.Crossing.TheVariants.{Miss, Cross};
ghost use Rattle.crossings.specs.Crossings as C;
ghost use Rattle.crossing_counts.specs.Words as Co;

use crossings::{Edge, Facet};
use points::{Axis, Point, PointPair};
use std::marker::Model;

// A crossing's count, which is 1, 0 or -1, and y and z of its points on A and on B. A count of 0 is a miss: an Option would ask for a branch where
// counts are added.
#[derive(Clone, Copy)]
pub struct Slim {
    n: i32,
    ay: f64,
    by: f64,
    az: f64,
    bz: f64,
}

impl Model for Slim {
    ghost use Rattle.std.specs.Prelude.{◌≤◌, nat_abs};
    ghost use Rattle.crossing_counts.specs.Values as Va;

    ghost Value = { Va.Slim };

    ghost view = { λ c. record { n = c.n; ay = c.ay; by = c.by; az = c.az; bz = c.bz } };

    ghost invariant = { λ c. nat_abs c.n ≤ 1 };

    ghost inverse = { λ v. record { n = v.n; ay = v.ay; by = v.by; az = v.az; bz = v.bz } };
}

// The sum of S by y, the first plus and the first minus.
#[derive(Clone, Copy)]
pub struct Sum {
    n: i32,
    plus: Slim,
    minus: Slim,
}

impl Slim {
    fn miss() -> Slim
        ensures { result ≡ Co.slim Miss }
    {
        Slim {
            n: 0,
            ay: 0.0,
            by: 0.0,
            az: 0.0,
            bz: 0.0,
        }
    }

    #[tactic(auto, unfolding(points::specs::Points::placed, points::specs::Points::pair_at, points::specs::Points::point_at))]
    fn placed(n: i32, plus: PointPair, minus: PointPair) -> Slim
        requires { nat_abs n ≤ 1 }
        ensures { result ≡ Co.slim (Cross n (P.placed Axis.X plus minus)) }
    {
        let t = points::share(points::gap(Axis::X, plus), points::gap(Axis::X, minus));
        Slim {
            n,
            ay: points::interpolated(t, plus.a.y, minus.a.y),
            by: points::interpolated(t, plus.b.y, minus.b.y),
            az: points::interpolated(t, plus.a.z, minus.a.z),
            bz: points::interpolated(t, plus.b.z, minus.b.z),
        }
    }

    fn turned_if(self, t: bool) -> Slim
        ensures { result ≡ Co.turned_if t self }
    {
        if t { Slim { n: -self.n, ..self } } else { self }
    }

    // What a pair adds to the sum of S by y. It takes no branch in the compiled code: which way the comparison goes is as good as random.
    fn counted(self) -> i32
        ensures value { result ≡ Co.counted self }
        ensures small { nat_abs result ≤ 1 }
    {
        if self.ay <= self.by { self.n } else { 0 }
    }

    // What it adds turned or not.
    fn counted_if(self, t: bool) -> i32
        ensures value { result ≡ Co.counted (Co.turned_if t self) }
        ensures small { nat_abs result ≤ 1 }
    {
        let n = self.counted();
        if t { -n } else { n }
    }
}

impl Sum {
    fn nothing() -> Sum
        ensures value { result ≡ Co.nothing }
        ensures small { nat_abs result.n ≤ 0 }
    {
        let none = Slim::miss();
        Sum {
            n: 0,
            plus: none,
            minus: none,
        }
    }

    #[tactic(auto, unfolding(crate::specs::Words::with))]
    fn with(self, c: Slim) -> Sum
        requires { nat_abs self.n ≤ 8 }
        ensures value { result ≡ Co.with c self }
        ensures small { nat_abs result.n ≤ nat_abs self.n + 1 }
    {
        if c.n == 0 {
            self
        } else if c.ay <= c.by {
            Sum {
                n: c.n + self.n,
                plus: c,
                ..self
            }
        } else {
            Sum { minus: c, ..self }
        }
    }

    // S by z.
    #[tactic(auto, unfolding(crate::specs::Words::shade))]
    fn shade(self) -> i32
        ensures value { result ≡ Co.shade self }
        ensures small { nat_abs result ≤ nat_abs self.n }
    {
        if self.n == 0 {
            return 0;
        }
        let p = self.plus;
        let m = self.minus;
        let t = points::share(p.by - p.ay, m.by - m.ay);
        if points::interpolated(t, p.az, m.az) <= points::interpolated(t, p.bz, m.bz) {
            self.n
        } else {
            0
        }
    }
}

// A vertex with an edge, from its pairs with the edge's start and end.
fn level(rising: bool, start: PointPair, end: PointPair) -> Slim
    ensures { result ≡ Co.slim (C.paired Axis.X (Co.ends rising start end)) }
{
    let up = if rising { 1 } else { -1 };
    match (
        points::at_least(Axis::X, start),
        points::at_least(Axis::X, end),
    ) {
        (true, false) => Slim::placed(-up, start, end),
        (false, true) => Slim::placed(up, end, start),
        _ => Slim::miss(),
    }
}

#[tactic(auto, unfolding(crossings::specs::Crossings::ve))]
fn ve(v: Point, e: Edge) -> Slim
    ensures { result ≡ Co.slim (C.ve v e) }
{
    let start = PointPair { a: v, b: e.start };
    let end = PointPair { a: v, b: e.end };
    level(true, start, end)
}

#[tactic(auto, unfolding(crossings::specs::Crossings::ev))]
fn ev(e: Edge, v: Point) -> Slim
    ensures { result ≡ Co.slim (C.ev e v) }
{
    let start = PointPair { a: e.start, b: v };
    let end = PointPair { a: e.end, b: v };
    level(false, start, end)
}

fn added(a: i32, b: i32, c: i32, d: i32) -> i32
    requires { (nat_abs a ≤ 1) × (nat_abs b ≤ 1) × (nat_abs c ≤ 1) × (nat_abs d ≤ 1) }
    ensures { result ≡ a +ℤ (b +ℤ (c +ℤ d)) }
{
    a + (b + (c + d))
}

// S by z of a vertex with a facet, from the vertex with the facet's three edges, each turned or not. The six are no struct: lent as one, they made each
// count take a fifth longer.
#[tactic(auto, unfolding(crate::specs::Words::gathered, crate::specs::Words::three))]
fn gather_three(tx: bool, x: Slim, ty: bool, y: Slim, tz: bool, z: Slim) -> i32
    ensures value { result ≡ Co.three tx x ty y tz z }
    ensures small { nat_abs result ≤ 4 }
{
    let last = Sum::nothing().with(z.turned_if(tz));
    let two = last.with(y.turned_if(ty));
    two.with(x.turned_if(tx)).shade()
}

// Nearly always the sum of S by y is 0, and then nobody asks which is plus and which is minus.
fn three(tx: bool, x: Slim, ty: bool, y: Slim, tz: bool, z: Slim) -> i32
    ensures value { result ≡ Co.three tx x ty y tz z }
    ensures small { nat_abs result ≤ 4 }
{
    let n = added(x.counted_if(tx), y.counted_if(ty), z.counted_if(tz), 0);
    if n == 0 {
        return 0;
    }
    gather_three(tx, x, ty, y, tz, z)
}

// S by z of two edges, from A's start and end with B's edge and from A's edge with B's start and end.
#[tactic(auto, unfolding(crate::specs::Words::gathered, crate::specs::Words::four))]
fn gather_four(s: Slim, t: Slim, u: Slim, v: Slim) -> i32
    ensures value { result ≡ Co.four s t u v }
    ensures small { nat_abs result ≤ 4 }
{
    let last = Sum::nothing().with(v);
    let two = last.with(u.turned_if(true));
    let three = two.with(t);
    three.with(s.turned_if(true)).shade()
}

fn four(s: Slim, t: Slim, u: Slim, v: Slim) -> i32
    ensures value { result ≡ Co.four s t u v }
    ensures small { nat_abs result ≤ 4 }
{
    let n = added(
        s.counted_if(true),
        t.counted(),
        u.counted_if(true),
        v.counted(),
    );
    if n == 0 {
        return 0;
    }
    gather_four(s, t, u, v)
}

// S by z of A's edge with a half-edge of B, from `from` to `to`. A half-edge of A has a function of its own below, since the order of the four is all
// that the two are.
fn side_b(along: bool, s: Slim, t: Slim, from: Slim, to: Slim) -> i32
    ensures value { result ≡ Co.side_B along s t from to }
    ensures small { nat_abs result ≤ 4 }
{
    if along {
        four(s, t, from, to)
    } else {
        -four(s, t, to, from)
    }
}

// S by z of a half-edge of A, from `from` to `to`, with B's edge.
fn side_a(along: bool, from: Slim, to: Slim, s: Slim, t: Slim) -> i32
    ensures value { result ≡ Co.side_A along from to s t }
    ensures small { nat_abs result ≤ 4 }
{
    if along {
        four(from, to, s, t)
    } else {
        -four(to, from, s, t)
    }
}

fn total(a: i32, b: i32, x: i32, y: i32, z: i32) -> i32
    requires { (nat_abs a ≤ 4) × (nat_abs b ≤ 4) × (nat_abs x ≤ 4) × (nat_abs y ≤ 4) × (nat_abs z ≤ 4) }
    ensures { result ≡ a -ℤ b -ℤ (x +ℤ (y +ℤ z)) }
{
    a - b - (x + (y + z))
}

// From here on A's and B's parts change places in each second function, as in the document, which has a formula for each: order and signs are all
// that differs.

// S(vA,fB)
pub fn vf_s(v: Point, f: Facet) -> i32
    ensures value { result ≡ C.S Axis.Z (C.vf v f) }
    ensures small { nat_abs result ≤ 1 }
{
    let pq = ve(v, f.edge_pq());
    let qr = ve(v, f.edge_qr());
    let rp = ve(v, f.edge_rp());
    three(f.pq, pq, f.qr, qr, f.rp, rp)
}

// S(fA,vB)
pub fn fv_s(f: Facet, v: Point) -> i32
    ensures value { result ≡ C.S Axis.Z (C.fv f v) }
    ensures small { nat_abs result ≤ 1 }
{
    let pq = ev(f.edge_pq(), v);
    let qr = ev(f.edge_qr(), v);
    let rp = ev(f.edge_rp(), v);
    three(!f.pq, pq, !f.qr, qr, !f.rp, rp)
}

// "X(eA,fB) = S(s,fB) - S(e,fB) - sum S(eA,h)"
pub fn ef(e: Edge, f: Facet) -> i32
    ensures value { result ≡ C.count (C.ef e f) }
    ensures small { nat_abs result ≤ 2 }
{
    let pq = f.edge_pq();
    let qr = f.edge_qr();
    let rp = f.edge_rp();
    let s1 = ve(e.start, pq);
    let s2 = ve(e.start, qr);
    let s3 = ve(e.start, rp);
    let t1 = ve(e.end, pq);
    let t2 = ve(e.end, qr);
    let t3 = ve(e.end, rp);
    let p = ev(e, f.p);
    let q = ev(e, f.q);
    let r = ev(e, f.r);
    let start = three(f.pq, s1, f.qr, s2, f.rp, s3);
    let end = three(f.pq, t1, f.qr, t2, f.rp, t3);
    let x = side_b(f.pq, s1, t1, p, q);
    let y = side_b(f.qr, s2, t2, q, r);
    let z = side_b(f.rp, s3, t3, r, p);
    total(start, end, x, y, z)
}

// "X(fA,eB) = S(fA,e) - S(fA,s) - sum S(h,eB)"
pub fn fe(f: Facet, e: Edge) -> i32
    ensures value { result ≡ C.count (C.fe f e) }
    ensures small { nat_abs result ≤ 2 }
{
    let pq = f.edge_pq();
    let qr = f.edge_qr();
    let rp = f.edge_rp();
    let s1 = ev(pq, e.start);
    let s2 = ev(qr, e.start);
    let s3 = ev(rp, e.start);
    let t1 = ev(pq, e.end);
    let t2 = ev(qr, e.end);
    let t3 = ev(rp, e.end);
    let p = ve(f.p, e);
    let q = ve(f.q, e);
    let r = ve(f.r, e);
    let start = three(!f.pq, s1, !f.qr, s2, !f.rp, s3);
    let end = three(!f.pq, t1, !f.qr, t2, !f.rp, t3);
    let x = side_a(f.pq, p, q, s1, t1);
    let y = side_a(f.qr, q, r, s2, t2);
    let z = side_a(f.rp, r, p, s3, t3);
    total(end, start, x, y, z)
}
