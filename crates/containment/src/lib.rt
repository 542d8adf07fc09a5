// How often a solid contains a point, with the solid as A and as B, in code.
#![tactic(auto)]

ghost use Rattle.std.specs.Prelude.{◌≡◌, [], ◌∷◌, ◌+◌, ◌*◌, ◌/◌, ◌<◌, ◌≤◌, length, get_or, nat_abs};
ghost use Rattle.list_words.specs.Lists.{sum_of, up_to};
ghost use Rattle.solids.specs.Solids as So;
ghost use Rattle.solids.specs.Admission as Ad;
ghost use Rattle.solids.specs.Refusals as Re;
ghost use Rattle.solids.specs.Containment as Co;
ghost use Rattle.solids.specs.Words as Sw;

use crossings::Facet;
use points::Point;
use solids::{Answer, Counted, Verdict};

// A flag and no closure: as whom the point's solid counts is a word of the contracts, and one clause serves both.
#[tactic(auto, unfolding(solids::specs::Words::facet_S))]
pub fn facet_s(as_b: bool, v: Point, f: Facet) -> i32
    ensures value { result ≡ Sw.facet_S as_b v f }
    ensures small { nat_abs result ≤ 1 }
{
    if as_b {
        crossing_counts::vf_s(v, f)
    } else {
        crossing_counts::fv_s(f, v)
    }
}

// "sum S(vA,f)" over B's facets, or "sum S(f,vB)" over A's.
fn sum_s(as_b: bool, v: Point, points: &[f64], corners: &[u32]) -> i32
    requires { Sw.Named points.now corners.now × (length corners.now ≤ 768) }
    ensures value { result ≡ sum_of (λ f. Sw.facet_S as_b v (So.facet (So.lent points.entry corners.entry) f)) (up_to (length corners.now / 3)) }
    ensures small { nat_abs result ≤ 256 }
{
    let mut sum = 0;
    for f in 0..corners.len() / 3 {
        sum += facet_s(as_b, v, facets::facet(points, corners, f));
    }
    sum
}

// The point's verdict, then the solid's.
#[tactic(auto, unfolding(solids::specs::Refusals::in_order))]
fn both(v: Point, points: &[f64], corners: &[u32]) -> Verdict
    ensures { result ≡ Re.in_order (Ad.point_admission v ∷ Ad.admission (So.lent points.entry corners.entry) ∷ []) }
{
    admission::admit_point(v)?;
    admission::admit(points, corners)
}

// "X(vA,B)" or "X(A,vB)".
#[tactic(auto, unfolding(solids::specs::Words::facet_S, solids::specs::Words::contained, solids::specs::Containment::in_A, solids::specs::Containment::in_B))]
pub fn contained(as_b: bool, v: Point, points: &[f64], corners: &[u32]) -> i32
    requires { Sw.Named points.now corners.now × (length corners.now ≤ 768) }
    ensures value { result ≡ Sw.contained as_b v (So.lent points.entry corners.entry) }
    ensures small { nat_abs result ≤ 256 }
{
    let sum = sum_s(as_b, v, points, corners);
    if as_b { sum } else { -sum }
}

#[tactic(auto, using(solids::proofs::Orders::count_as_is))]
fn count_as(as_b: bool, v: Point, points: &[f64], corners: &[u32]) -> Counted
    ensures { result ≡ Sw.count_as as_b v (So.lent points.entry corners.entry) }
{
    match both(v, points, corners) {
        Ok(()) => Counted {
            answer: Answer::SUCCESS,
            count: contained(as_b, v, points, corners),
        },
        Err(answer) => Counted::from(answer),
    }
}

#[tactic(auto, unfolding(solids::specs::Words::count_as))]
pub fn count_as_a(v: Point, points: &[f64], corners: &[u32]) -> Counted
    ensures { Co.CountAsA v (So.lent points.entry corners.entry) result }
{
    count_as(false, v, points, corners)
}

#[tactic(auto, unfolding(solids::specs::Words::count_as))]
pub fn count_as_b(v: Point, points: &[f64], corners: &[u32]) -> Counted
    ensures { Co.CountAsB v (So.lent points.entry corners.entry) result }
{
    count_as(true, v, points, corners)
}
