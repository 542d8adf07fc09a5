// The inclusion of each vertex: how often the other solid contains it, weighed by the operation's numbers. A facet that is beside the vertex, by x or
// y, or on the side of it that does not count, by z, counts nothing, and is left out; and a vertex outside the box round the other solid is in it 0 times.
#![tactic(auto)]

ghost use Rattle.std.specs.Prelude.{◌≡◌, List, ◌+◌, ◌<◌, ◌≤◌, ℤ, nat_abs, ◌+ℤ◌, ◌*ℤ◌, length};
ghost use Rattle.list_words.specs.Lists.{sum_of};
ghost use Rattle.solids.specs.Solids as So;
ghost use Rattle.solids.specs.Admission as Ad;
ghost use Rattle.solids.specs.Refusals.{accepted};
ghost use Rattle.solids.specs.Words as Sw;
ghost use Rattle.edges.specs.Readers.{solid_of};
ghost use Rattle.bounds.specs.declared.Thing.TheVariants.{Facets};
ghost use Rattle.bounds.specs.Words as Bo;
ghost use Rattle.inclusions.specs.Words as In;

use crate::side::Side;
use bounds::{Bounds, Far, Thing};
use box_lists::Near;
use edges::ReadySolid;
use points::Point;
use results::Operation;

pub mod side;

// Facets that count nothing: of B those below, of A those above.
// `as_b` is a word of the contracts: a flag, as in crates/containment.
fn idle(as_b: bool) -> Far
    ensures { result ≡ In.idle as_b }
{
    if as_b { Far::Below } else { Far::Above }
}

// S of the point with facet number f of B, or of that of A with the point.
fn s_near(as_b: bool, v: Point, near: &Near<'_>, f: usize) -> i32
    requires facet { (near.now.thing ≡ Facets) × (f < So.facets (solid_of near.now.solid)) }
    requires present { Bo.Present v }
    ensures value { result ≡ Sw.facet_S as_b v (So.facet (solid_of near.now.solid) f) }
    ensures small { nat_abs result ≤ 1 }
{
    if box_lists::far_at(idle(as_b), bounds::dot(v), near.boxes, f) {
        return 0;
    }
    containment::facet_s(as_b, v, near.solid.facet(f))
}

fn sum_near(as_b: bool, v: Point, near: &Near<'_>) -> i32
    requires facets { (near.now.thing ≡ Facets) × (length near.now.columns.now ≤ 256) }
    requires present { Bo.Present v }
    ensures value { result ≡ sum_of (λ f. Sw.facet_S as_b v (So.facet (solid_of near.now.solid) f)) near.now.columns.now }
    ensures small { nat_abs result ≤ 256 }
{
    let mut sum = 0;
    for &c in near.columns {
        sum += s_near(as_b, v, near, c as usize);
    }
    sum
}

// "X(vA,B)" or "X(A,vB)" of vertex i, from the columns that count anything for it.
fn contained_near(side: &Side<'_>, i: usize, near: &Near<'_>) -> i32
    requires { (i < So.vertices (solid_of side.now.own)) × In.Facing side.now near.now i (i + 1) }
    ensures value { result ≡ Sw.contained side.now.as_b (So.vertex (solid_of side.now.own) i) (solid_of side.now.other) }
    ensures small { nat_abs result ≤ 256 }
{
    let v = vertices::vertex(side.own.points, i);
    if bounds::apart(bounds::dot(v), side.other_box) {
        return 0;
    }
    let sum = sum_near(side.as_b, v, near);
    if side.as_b { sum } else { -sum }
}

fn weighed(alone: i32, times: i32, x: i32) -> i16
    requires { (nat_abs alone ≤ 1) × (nat_abs times ≤ 1) × (nat_abs x ≤ 256) }
    ensures value { result ≡ alone +ℤ times *ℤ x }
    ensures small { nat_abs result ≤ 257 }
{
    (alone + times * x) as i16
}

// The vertices from `begin` to `end`, by the same facets.
fn weigh(side: &Side<'_>, near: &Near<'_>, begin: usize, end: usize, inc: &mut [i16])
    requires facing { In.Facing side.now near.now begin end × (begin ≤ end) × (end ≤ So.vertices (solid_of side.now.own)) }
    requires room { (side.now.at + So.vertices (solid_of side.now.own) ≤ length inc.old) × (length inc.old ≤ 256) }
    ensures weighed { (old : List ℤ) → In.Weighed side.now old inc.old begin → In.Weighed side.now old inc.new end }
    ensures same { length inc.new ≡ length inc.old }
{
    for i in begin..end {
        let x = contained_near(side, i, near);
        inc[side.at + i] = weighed(side.alone, side.times, x);
    }
}

// All vertices, group by group: each has those of the facets that are near the box round it. Where a group ends, the next begins,
// so it is a `while`.
fn weigh_groups(side: &Side<'_>, near: &Near<'_>, inc: &mut [i16])
    requires facing { In.Facing side.now near.now 0 (So.vertices (solid_of side.now.own)) }
    requires room { (side.now.at + So.vertices (solid_of side.now.own) ≤ length inc.old) × (length inc.old ≤ 256) }
    ensures weighed { In.Weighed side.now inc.old inc.new (So.vertices (solid_of side.now.own)) }
    ensures same { length inc.new ≡ length inc.old }
{
    let many = side.own.points.len() / 3;
    let mut few = [0u32; 384];
    let mut begin = 0;
    while begin < many {
        let end = bounds::group_end(begin, many);
        let all = bounds::hull(side.own.points, begin, end);
        let n = near.narrow(idle(side.as_b), all, &mut few);
        let nearer = Near {
            solid: near.solid,
            thing: near.thing,
            columns: &few[..n],
            boxes: near.boxes,
        };
        weigh(side, &nearer, begin, end, inc);
        begin = end;
    }
}

// The same, with the facets and their boxes gathered first.
fn include_side(side: &Side<'_>, inc: &mut [i16])
    requires room { (side.now.at + So.vertices (solid_of side.now.own) ≤ length inc.old) × (length inc.old ≤ 256) }
    ensures weighed { In.Weighed side.now inc.old inc.new (So.vertices (solid_of side.now.own)) }
    ensures same { length inc.new ≡ length inc.old }
{
    let mut columns = [0u32; 384];
    let mut boxes = [0.0f64; 2304];
    let n = box_lists::gather(
        idle(side.as_b),
        side.own_box,
        Thing::Facets,
        side.other,
        side.other.corners.len() / 3,
        &mut columns,
        &mut boxes,
    );
    let near = Near {
        solid: side.other,
        thing: Thing::Facets,
        columns: &columns[..n],
        boxes: &boxes,
    };
    weigh_groups(side, &near, inc);
}

// The inclusions of A's vertices and then of B's.
pub fn include(op: Operation, a: ReadySolid, b: ReadySolid, inc: &mut [i16])
    requires admitted { (Ad.admission (solid_of a) ≡ accepted) × (Ad.admission (solid_of b) ≡ accepted) }
    requires inc_len { length inc.old ≡ So.vertices (solid_of a) + So.vertices (solid_of b) }
    ensures { In.Included op (solid_of a.entry) (solid_of b.entry) inc.new }
{
    let a_box = bounds::whole(a);
    let b_box = bounds::whole(b);
    let n = op.numbers();
    let of_a = Side {
        as_b: true,
        own: a,
        other: b,
        own_box: a_box,
        other_box: b_box,
        alone: n.c_a,
        times: n.c_i,
        at: 0,
    };
    include_side(&of_a, inc);
    let of_b = Side {
        as_b: false,
        own: b,
        other: a,
        own_box: b_box,
        other_box: a_box,
        alone: n.c_b,
        times: n.c_i,
        at: a.points.len() / 3,
    };
    include_side(&of_b, inc);
}
