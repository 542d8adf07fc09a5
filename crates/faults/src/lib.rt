// Checks 3, 4, 10 and 11 on a solid, and what 3 and 4 look for in a point: a blank, a coordinate beyond the limit, a facet with a fault.
#![tactic(auto)]

ghost use Rattle.std.specs.Prelude.{◌≡◌, [], ◌/◌, ◌<◌, length};
ghost use Rattle.std.specs.Float.Ieee.{is_nan};
ghost use Rattle.list_words.specs.Lists.{any};
ghost use Rattle.points.specs.Points.{coordinates};
ghost use Rattle.solids.specs.Refusals.{at_each};
ghost use Rattle.solids.specs.Solids as So;
ghost use Rattle.solids.specs.Admission as Ad;
ghost use Rattle.solids.specs.Words as Sw;

use points::Point;
use solids::{Refusal, Verdict};

// A NaN, and nothing else, differs from itself.
pub fn blank(x: f64) -> bool
    ensures { result ≡ is_nan x }
{
    x != x
}

pub fn beyond(x: f64) -> bool
    ensures { result ≡ Ad.beyond x }
{
    x > 1048576.0 || x < -1048576.0
}

// Check 3 (blanks) or check 4 (beyond the limit) of one coordinate.
// A flag and no closure: which of the two is looked for is a word of the contracts, and one clause serves both.
fn bad(blanks: bool, x: f64) -> bool
    ensures { result ≡ Sw.bad blanks x }
{
    if blanks { blank(x) } else { beyond(x) }
}

#[tactic(auto, unfolding(list_words::specs::Lists::any))]
pub fn bad_point(blanks: bool, v: Point) -> bool
    ensures { result ≡ any (Sw.bad blanks) (coordinates v) }
{
    bad(blanks, v.x) || bad(blanks, v.y) || bad(blanks, v.z)
}

// What that check refuses for.
fn bad_refusal(blanks: bool) -> Refusal
    ensures { Sw.number result ≡ Sw.bad_number blanks }
{
    if blanks {
        Refusal::Blank
    } else {
        Refusal::OutOfRange
    }
}

// Check 3 or check 4, vertex by vertex: the first that is bad.
pub fn check_points(blanks: bool, points: &[f64]) -> Verdict
    ensures { result ≡ at_each (length points.now / 3) (Sw.check_vertex blanks (So.solid points.now [])) }
{
    for i in 0..points.len() / 3 {
        if bad_point(blanks, vertices::vertex(points, i)) {
            return Err(bad_refusal(blanks).on_solid(i));
        }
    }
    Ok(())
}

#[tactic(auto, unfolding(solids::specs::Admission::too_high))]
fn too_high(n: usize, p: u32, q: u32, r: u32) -> bool
    ensures { result ≡ Ad.too_high n p q r }
{
    n <= p as usize || n <= q as usize || n <= r as usize
}

#[tactic(auto, unfolding(solids::specs::Admission::named_twice))]
fn named_twice(p: u32, q: u32, r: u32) -> bool
    ensures { result ≡ Ad.named_twice p q r }
{
    p == q || q == r || r == p
}

// Checks 10 and 11 of one facet, in this order.
#[tactic(auto, unfolding(solids::specs::Admission::check_facet, solids::specs::Refusals::in_order))]
fn check_facet(points: &[f64], corners: &[u32], f: usize) -> Verdict
    requires { f < length corners.now / 3 }
    ensures { result ≡ Ad.check_facet (So.lent points.entry corners.entry) f }
{
    let p = corners[3 * f];
    let q = corners[3 * f + 1];
    let r = corners[3 * f + 2];
    if too_high(points.len() / 3, p, q, r) {
        return Err(Refusal::TooHigh.on_solid(f));
    }
    if named_twice(p, q, r) {
        return Err(Refusal::NamedTwice.on_solid(f));
    }
    Ok(())
}

// Facet by facet: "the lower facet number wins".
pub fn check_corners(points: &[f64], corners: &[u32]) -> Verdict
    ensures { result ≡ Ad.check_corners (So.lent points.entry corners.entry) }
{
    for f in 0..corners.len() / 3 {
        check_facet(points, corners, f)?;
    }
    Ok(())
}
