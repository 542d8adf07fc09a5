// Boxes round edges, facets and all of a solid, and the test whether two boxes are apart: what is apart does not cross.
#![tactic(auto)]

ghost use Rattle.std.specs.Prelude.{◌≡◌, ◌||◌, ◌*◌, ◌-◌, ◌<◌, ◌≤◌, length};
ghost use Rattle.std.specs.Float.Ieee.{lt};
ghost use Rattle.edges.specs.Readers.{solid_of};
ghost use Rattle.bounds.specs.Words as Bo;

use crossings::{Edge, Facet};
use edges::ReadySolid;
use points::Point;

// How many rows, or vertices, have one list of columns: those near the box round them. Of 5, 6, 8 and 12 it took the fewest instructions.
pub const GROUP: usize = 6;

// From low to high, on each axis.
#[derive(Clone, Copy)]
pub struct Bounds {
    pub low: Point,
    pub high: Point,
}

// What a list of boxes is of.
// A kind that a `match` looks at, and no closure: it is a word of the contracts, as `Far` is.
#[derive(Clone, Copy)]
pub enum Thing {
    Edges,
    Facets,
}

// Which boxes are left out for what lies in a box: those apart from it by some axis; or for vertices those beside it, and those below it, or above it,
// whose facets count nothing for them.
#[derive(Clone, Copy)]
pub enum Far {
    Apart,
    Below,
    Above,
}

// The definitions of boxes say which of two zeros it is, and what comes of a blank; `f64::min` and `f64::max` say it in another way.
#[tactic(auto, unfolding(crate::specs::Words::lower))]
fn lower(a: f64, b: f64) -> f64
    ensures { result ≡ Bo.lower a b }
{
    if a <= b { a } else { b }
}

#[tactic(auto, unfolding(crate::specs::Words::higher))]
fn higher(a: f64, b: f64) -> f64
    ensures { result ≡ Bo.higher a b }
{
    if a <= b { b } else { a }
}

// The low corner and the high one: a function that took `lower` or `higher` would be no shorter.
#[tactic(auto, unfolding(crate::specs::Words::lowest))]
fn lowest(p: Point, q: Point) -> Point
    ensures { result ≡ Bo.lowest p q }
{
    Point {
        x: lower(p.x, q.x),
        y: lower(p.y, q.y),
        z: lower(p.z, q.z),
    }
}

#[tactic(auto, unfolding(crate::specs::Words::highest))]
fn highest(p: Point, q: Point) -> Point
    ensures { result ≡ Bo.highest p q }
{
    Point {
        x: higher(p.x, q.x),
        y: higher(p.y, q.y),
        z: higher(p.z, q.z),
    }
}

pub fn dot(v: Point) -> Bounds
    ensures { result ≡ Bo.dot v }
{
    Bounds { low: v, high: v }
}

// The box round two boxes.
#[tactic(auto, unfolding(crate::specs::Words::joined))]
pub fn joined(a: Bounds, b: Bounds) -> Bounds
    ensures { result ≡ Bo.joined a b }
{
    Bounds {
        low: lowest(a.low, b.low),
        high: highest(a.high, b.high),
    }
}

#[tactic(auto, unfolding(crate::specs::Words::round_edge))]
pub fn round_edge(e: Edge) -> Bounds
    ensures { result ≡ Bo.round_edge e }
{
    joined(dot(e.start), dot(e.end))
}

#[tactic(auto, unfolding(crate::specs::Words::round_facet))]
pub fn round_facet(f: Facet) -> Bounds
    ensures { result ≡ Bo.round_facet f }
{
    joined(joined(dot(f.p), dot(f.q)), dot(f.r))
}

// A box that ends before it begins, so that what is joined to it stands.
pub fn nowhere() -> Bounds
    ensures { result ≡ Bo.nowhere }
{
    let low = Point {
        x: 1048576.0,
        y: 1048576.0,
        z: 1048576.0,
    };
    let high = Point {
        x: -1048576.0,
        y: -1048576.0,
        z: -1048576.0,
    };
    Bounds { low, high }
}

// The box round points number `begin` to `end` of a list.
#[tactic(auto, using(crate::proofs::Things::span_next), unfolding(crate::specs::Words::span))]
pub fn hull(points: &[f64], begin: usize, end: usize) -> Bounds
    requires { (length points.now ≤ 384) × (begin ≤ end) × (3 * end ≤ length points.now) }
    ensures { result ≡ Bo.hull points.now begin (end - begin) }
{
    let mut all = nowhere();
    for i in begin..end {
        all = joined(all, dot(vertices::vertex(points, i)));
    }
    all
}

// The box round all vertices of a solid.
pub fn whole(s: ReadySolid) -> Bounds
    ensures { result ≡ Bo.whole (solid_of s.entry) }
{
    hull(s.points, 0, s.points.len() / 3)
}

// Does the one, from `low` to `high`, end before the other begins?
pub fn clear(low: f64, high: f64, other_low: f64, other_high: f64) -> bool
    ensures { result ≡ (lt high other_low || lt other_high low) }
{
    high < other_low || other_high < low
}

// Apart by x or y: so are a vertex and a facet that do not cross.
#[tactic(auto, unfolding(crate::specs::Words::beside, crate::specs::Words::apart_on))]
pub fn beside(a: Bounds, b: Bounds) -> bool
    ensures { result ≡ Bo.beside a b }
{
    clear(a.low.x, a.high.x, b.low.x, b.high.x) || clear(a.low.y, a.high.y, b.low.y, b.high.y)
}

// Apart by some axis: so are an edge and a facet that do not cross.
#[tactic(auto, unfolding(crate::specs::Words::apart, crate::specs::Words::apart_on))]
pub fn apart(a: Bounds, b: Bounds) -> bool
    ensures { result ≡ Bo.apart a b }
{
    beside(a, b) || clear(a.low.z, a.high.z, b.low.z, b.high.z)
}

// Where a group that begins ends.
pub fn group_end(begin: usize, end: usize) -> usize
    requires { begin < end }
    ensures { (begin < result) × (result ≤ end) }
{
    begin + GROUP.min(end - begin)
}
