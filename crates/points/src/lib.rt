// A point, a crossing's pair of points, the axis that a comparison looks along, and the points worked out from plus and minus.
#![tactic(auto)]

ghost use Rattle.std.specs.Prelude.{◌≡◌, ◌&&◌};
ghost use Rattle.std.specs.Float.Ieee.{le};
ghost use Rattle.points.specs.Points as P;

// Head, flow and output.
#[derive(Clone, Copy)]
pub struct Point {
    pub x: f64,
    pub y: f64,
    pub z: f64,
}

// The point on A's thing and the point on B's.
#[derive(Clone, Copy)]
pub struct PointPair {
    pub a: Point,
    pub b: Point,
}

#[derive(Clone, Copy)]
pub enum Axis {
    X,
    Y,
    Z,
}

pub fn coordinate(k: Axis, v: Point) -> f64
    ensures { result ≡ P.coordinate k v }
{
    match k {
        Axis::X => v.x,
        Axis::Y => v.y,
        Axis::Z => v.z,
    }
}

// "B's coordinate at the pair of points is at least A's"
#[tactic(auto, unfolding(crate::specs::Points::at_least))]
pub fn at_least(k: Axis, w: PointPair) -> bool
    ensures { result ≡ P.at_least k w }
{
    coordinate(k, w.a) <= coordinate(k, w.b)
}

// "D+ and D- as B's coordinate less A's"
#[tactic(auto, unfolding(crate::specs::Points::gap))]
pub fn gap(k: Axis, w: PointPair) -> f64
    ensures { result ≡ P.gap k w }
{
    coordinate(k, w.b) - coordinate(k, w.a)
}

// "t = D+ / (D+ - D-)"
#[tactic(auto, unfolding(crate::specs::Points::share))]
pub fn share(plus: f64, minus: f64) -> f64
    ensures { result ≡ P.share plus minus }
{
    plus / (plus - minus)
}

// p at most v at most m; false at a NaN. Both are looked at and nothing branches: which of p and m is the lower is as good as random.
fn in_order(p: f64, v: f64, m: f64) -> bool
    ensures { result ≡ (le p v && le v m) }
{
    (p <= v) & (v <= m)
}

// Does v lie "between p and m, ends included"?
#[tactic(auto, unfolding(crate::specs::Points::between))]
pub fn between(p: f64, m: f64, v: f64) -> bool
    ensures { result ≡ P.between p m v }
{
    in_order(p, v, m) | in_order(m, v, p)
}

// "If the number lies between p and m, ends included, it stands; otherwise p is taken."
#[tactic(auto, unfolding(crate::specs::Points::held))]
pub fn held(p: f64, m: f64, v: f64) -> f64
    ensures { result ≡ P.held p m v }
{
    if between(p, m, v) { v } else { p }
}

// "Each coordinate of A's point is p - t*(p - m)"
#[tactic(auto, unfolding(crate::specs::Points::interpolated))]
pub fn interpolated(t: f64, p: f64, m: f64) -> f64
    ensures { result ≡ P.interpolated t p m }
{
    held(p, m, p - t * (p - m))
}

#[tactic(auto, unfolding(crate::specs::Points::point_at))]
pub fn point_at(t: f64, p: Point, m: Point) -> Point
    ensures { result ≡ P.point_at t p m }
{
    Point {
        x: interpolated(t, p.x, m.x),
        y: interpolated(t, p.y, m.y),
        z: interpolated(t, p.z, m.z),
    }
}

// "with p and m from A's plus and minus points; B's likewise"
#[tactic(auto, unfolding(crate::specs::Points::pair_at))]
pub fn pair_at(t: f64, plus: PointPair, minus: PointPair) -> PointPair
    ensures { result ≡ P.pair_at t plus minus }
{
    PointPair {
        a: point_at(t, plus.a, minus.a),
        b: point_at(t, plus.b, minus.b),
    }
}

#[tactic(auto, unfolding(crate::specs::Points::placed))]
pub fn placed(k: Axis, plus: PointPair, minus: PointPair) -> PointPair
    ensures { result ≡ P.placed k plus minus }
{
    pair_at(share(gap(k, plus), gap(k, minus)), plus, minus)
}
